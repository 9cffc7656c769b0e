use crate::keepers::Store;
use crate::logs::Log;
use crate::words::{cut, number, said, small, text};
use bootstrap_core::Boot;
use std::alloc::Global;
use std::test::Fail;

/// What a call answers, with the reply of a relay.
pub fn boot_answer(
    alloc: Global,
    boot: &mut Boot<Log, Store>,
    reply: &[u8],
    row: &str,
) -> Result<String, Fail> {
    let (word, rest) = cut(row);
    match word {
        "take_log" => take_log(alloc, boot, reply, small(rest)),
        "apply" => apply(alloc, boot, small(rest)),
        "trim" => trim(alloc, boot, number(rest)),
        "start" => start(alloc, boot, rest),
        "target" => target(alloc, boot, rest),
        "numbers" => numbers(alloc, boot),
        _ => text(alloc, "no call"),
    }
}

fn take_log(
    alloc: Global,
    boot: &mut Boot<Log, Store>,
    reply: &[u8],
    most: u32,
) -> Result<String, Fail> {
    said(alloc, &boot.take_log(alloc, reply, most))
}

fn apply(alloc: Global, boot: &mut Boot<Log, Store>, most: u32) -> Result<String, Fail> {
    if most == 0 || most > 32 {
        return text(alloc, "1 to 32");
    }
    said(alloc, &boot.apply(alloc, most))
}

fn trim(alloc: Global, boot: &mut Boot<Log, Store>, scn: u64) -> Result<String, Fail> {
    said(alloc, &boot.trim(alloc, scn))
}

fn start(alloc: Global, boot: &Boot<Log, Store>, row: &str) -> Result<String, Fail> {
    let (since, kind) = cut(row);
    said(alloc, &boot.start(number(since), kind == "fresh"))
}

fn target(alloc: Global, boot: &Boot<Log, Store>, row: &str) -> Result<String, Fail> {
    let (start, least) = cut(row);
    said(alloc, &boot.target(number(start), number(least)))
}

fn numbers(alloc: Global, boot: &Boot<Log, Store>) -> Result<String, Fail> {
    Ok(format!(in alloc;
        "base {} applied {} high {} halted {}",
        boot.base(),
        boot.applied(),
        boot.high(),
        boot.is_halted()
    )?)
}
