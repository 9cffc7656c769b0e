ghost use Rattle.std.specs.Prelude.{◌≡◌, ◌+◌, ◌<◌, ◌≤◌, ◌^◌, [], ◌∷◌, length, Some, IfOk, OnOk, OnErr};
ghost use Rattle.bus_types.specs.Window.{Span};
ghost use Rattle.bus_types.specs.declared.change.Key.TheVariants.{Long};
ghost use Rattle.generated_windows.specs.Generated.{
  next_state,
  drawn,
  draws,
  bytes_from,
  put_of,
  after_change,
  generated_change,
  generated_changes,
  after_changes,
  generated_window,
  after_window,
};

use bus_types::{Change, Key, NoMemory, Payload, PayloadFault, Window};
use std::alloc::Global;

/// Why there was no window: memory ran out.
pub type GenFault = NoMemory;

// The state after the next draw.
#[tactic(auto, unfolding(crate::specs::Generated::next_state))]
fn next_state(state: u32) -> u32
    ensures value { result ≡ next_state state }
    ensures range { result < 2 ^ 31 }
{
    ((u64::from(state) * 1_103_515_245 + 12_345) % 2_147_483_648) as u32
}

// Draws a number.
fn draw(state: &mut u32) -> u32
    ensures state { state.new ≡ next_state state.old }
    ensures value { result ≡ drawn state.new }
    ensures range { result < 2 ^ 15 }
{
    *state = next_state(*state);
    *state / 65_536
}

// 64 bytes: the last byte of a number, and then each one more than the one before it.
fn rising(first: u32) -> [u8; 64]
    requires { first < 2 ^ 16 }
    ensures { result ≡ bytes_from first 64 }
{
    let mut bytes = [0; 64];
    for j in 0..64 {
        bytes[j] = ((first + j as u32) % 256) as u8;
    }
    bytes
}

// So many bytes, from the last byte of a number on, each one more than the one before it.
fn payload(alloc: Global, first: u32, count: u32) -> Result<Payload, NoMemory>
    requires first { first < 2 ^ 16 }
    requires count { count ≤ 64 }
    ensures { IfOk result (λ payload. payload ≡ bytes_from first count) }
{
    let bytes = rising(first);
    match Payload::new(alloc, &bytes[..count as usize]) {
        Ok(payload) => Ok(payload),
        Err(PayloadFault::NoMemory) => Err(NoMemory),
        Err(PayloadFault::TooLong) => unreachable!(),
    }
}

// What two draws put, if they put anything.
fn put(alloc: Global, b: u32, c: u32) -> Result<Option<Payload>, NoMemory>
    requires b { b < 2 ^ 15 }
    requires c { c < 2 ^ 15 }
    ensures { IfOk result (λ put. put ≡ put_of b c) }
{
    if c % 8 == 0 {
        return Ok(None);
    }
    Ok(Some(payload(alloc, b + c, c % 64 + 1)?))
}

// The change of the next three draws.
fn change(alloc: Global, state: &mut u32) -> Result<Change, NoMemory>
    ensures change { IfOk result (λ change. change ≡ generated_change state.old) }
    ensures state { OnOk result (state.new ≡ after_change state.old) }
{
    let a = draw(state);
    let b = draw(state);
    let c = draw(state);
    Ok(Change {
        source: (a % 3) as u16,
        key: Key::Long(u64::from(b % 4_096)),
        put: put(alloc, b, c)?,
    })
}

// The changes of the next draws.
fn changes(alloc: Global, state: &mut u32, count: u32) -> Result<Vec<Change>, NoMemory>
    requires { count ≤ 4 }
    ensures changes { IfOk result (λ changes. changes.items ≡ generated_changes count state.old) }
    ensures state { OnOk result (state.new ≡ after_changes count state.old) }
{
    let mut changes = Vec::with_capacity(alloc, count as usize)?;
    for _i in 0..count {
        changes.push(change(alloc, state)?)?;
    }
    Ok(changes)
}

/// A law of the generator: the first draws from the seed 0, and its first window.
pub fn worked_windows()
    ensures draws { draws 7 0 ≡ 0 ∷ 21468 ∷ 9988 ∷ 22117 ∷ 3498 ∷ 16927 ∷ 16045 ∷ [] }
    ensures window { generated_window 0 0
        ≡ record { scn = 1; prev = 0; changes = record { source = 1; key = Long 1637; put = Some (bytes_from 15 43) } ∷ [] } }
    ensures bytes { bytes_from 254 4 ≡ 254 ∷ 255 ∷ 0 ∷ 1 ∷ [] }
{}

/// The next window of a generator, behind the window of an SCN, or 0, which is at most 9,223,372,036,854,775,804. The
/// state is the seed at first, from 0 to 2,147,483,647; each window moves it on. After want of memory it is as before.
pub fn gen_window(alloc: Global, state: &mut u32, last: u64) -> Result<Window, GenFault>
    requires { last ≤ 9223372036854775804 }
    ensures window { IfOk result (λ window. window ≡ generated_window state.old last) }
    ensures chained { IfOk result (λ window. window.prev ≡ last) }
    ensures full { IfOk result (λ window. 0 < length window.changes) }
    ensures near { IfOk result (λ window. window.scn ≤ last + 3) }
    ensures state { OnOk result (state.new ≡ after_window state.old) }
    ensures err { OnErr result (state.new ≡ state.old) }
{
    let mut next = *state;
    let above = draw(&mut next) % 3 + 1;
    let count = draw(&mut next) % 4 + 1;
    let changes = changes(alloc, &mut next, count)?;
    let Ok(window) = Window::new(last + u64::from(above), last, changes) else {
        unreachable!();
    };
    *state = next;
    Ok(window)
}
