ghost use Rattle.std.specs.Prelude.{◌≡◌, ◌↔◌, Some, None, IfOk, IsErrOf, IsTrue, IsUtf8, string_bytes};
ghost use Rattle.serde_json.specs.Read.{read};
ghost use Rattle.serde_json.specs.View.{view};
ghost use Rattle.snapshot_applier.specs.declared.boot.BootMark.{BootMark};
ghost use Rattle.snapshot_applier.specs.BootMark.{IsBootMark, boot_mark_text};
ghost use Rattle.json_forms.specs.Objects.{number_at};
ghost use Rattle.snapshot_applier.specs.Members.{boot_data, boot_in};

use crate::boot::BootMark;
use crate::fault::BootTextFault;
use bus_types::{MAX_SCN, MarkText, NoMemory};
use serde_json::{Value, json};
use std::alloc::{AllocError, Global};

/// The one text of a boot mark, compact JSON: `{"applied":30,"base":10}`.
pub fn boot_text(alloc: Global, mark: &BootMark) -> Result<MarkText, NoMemory>
    requires { IsBootMark mark.now }
    ensures { IfOk result (λ text. text ≡ boot_mark_text mark.now) }
{
    let text = json_text(alloc, mark)?;
    MarkText::new(alloc, text.as_bytes())
}

fn json_text(alloc: Global, mark: &BootMark) -> Result<String, AllocError>
    requires { IsBootMark mark.now }
    ensures { IfOk result (λ text. string_bytes text ≡ boot_mark_text mark.now) }
{
    let value = value_of(alloc, mark)?;
    value.to_string(alloc)
}

// The boot mark as a JSON object.
fn value_of(alloc: Global, mark: &BootMark) -> Result<Value, AllocError>
    ensures { IfOk result (λ value. view value ≡ boot_data mark.now) }
{
    let applied = mark.applied;
    let base = mark.base;
    json!(in alloc; {"applied": applied, "base": base})
}

/// The boot mark of a text. `BadMark` comes exactly where the text is no boot mark's; another order of its members, a space
/// or another form of a number makes it so.
pub fn read_boot(alloc: Global, text: &MarkText) -> Result<BootMark, BootTextFault>
    ensures lawful { IfOk result IsBootMark }
    ensures read { IfOk result (λ mark. text.now ≡ boot_mark_text mark) }
    ensures bad { IsErrOf result BootTextFault.BadMark → (mark : BootMark) → IsBootMark mark → text.now ≡ boot_mark_text mark → ⊥ }
{
    let mark = candidate(alloc, text.bytes())?;
    if !is_text_of(alloc, &mark, text)? {
        return Err(BootTextFault::BadMark);
    }
    Ok(mark)
}

// Whether the text is the boot mark's.
fn is_text_of(alloc: Global, mark: &BootMark, text: &MarkText) -> Result<bool, NoMemory>
    requires { IsBootMark mark.now }
    ensures { IfOk result (λ same. IsTrue same ↔ (text.now ≡ boot_mark_text mark.now)) }
{
    let written = boot_text(alloc, mark)?;
    Ok(written.bytes() == text.bytes())
}

// The only boot mark whose text the bytes can be.
fn candidate(alloc: Global, bytes: &[u8]) -> Result<BootMark, BootTextFault>
    ensures lawful { IfOk result IsBootMark }
    ensures only { IfOk result (λ found. (mark : BootMark) → IsBootMark mark → bytes.now ≡ boot_mark_text mark → found ≡ mark) }
    ensures bad { IsErrOf result BootTextFault.BadMark → (mark : BootMark) → IsBootMark mark → bytes.now ≡ boot_mark_text mark → ⊥ }
{
    let value = json_of(alloc, bytes)?;
    let Some(mark) = mark_in(&value) else {
        return Err(BootTextFault::BadMark);
    };
    if !is_boot_mark(mark) {
        return Err(BootTextFault::BadMark);
    }
    Ok(mark)
}

// The JSON of a text. `BadMark` comes only where the bytes are no UTF-8 or no JSON.
fn json_of(alloc: Global, bytes: &[u8]) -> Result<Value, BootTextFault>
    ensures value { IfOk result (λ value. read bytes.now ≡ Some (view value)) }
    ensures bad { IsErrOf result BootTextFault.BadMark → IsUtf8 bytes.now → read bytes.now ≡ None }
{
    match Value::from_slice(alloc, bytes) {
        Ok(value) => Ok(value),
        Err(fault) if fault.is_memory() => Err(BootTextFault::NoMemory),
        Err(_) => Err(BootTextFault::BadMark),
    }
}

fn is_boot_mark(mark: BootMark) -> bool
    ensures { IsTrue result ↔ IsBootMark mark }
{
    mark.base <= mark.applied && mark.applied <= MAX_SCN
}

#[tactic(auto, unfolding(crate::specs::Members::boot_in))]
fn mark_in(value: &Value) -> Option<BootMark>
    ensures { result ≡ boot_in (view value.now) }
{
    let applied = number_at(value, "applied")?;
    let base = number_at(value, "base")?;
    Some(BootMark { base, applied })
}

fn number_at(value: &Value, name: &str) -> Option<u64>
    ensures { result ≡ number_at name.now (view value.now) }
{
    value.get(name)?.as_u64()
}
