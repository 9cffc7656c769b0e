use crate::words::{mark_text, said, shown};
use bus_types::MarkText;
use checkpoint::Mark;
use snapshot_applier::{BootMark, boot_text, read_boot};
use std::alloc::Global;
use std::test::Fail;

/// The mark of a text, its floor, and the text that it is written as.
pub fn mark_answer(alloc: Global, words: &str) -> Result<String, Fail> {
    let read = mark_text(alloc, words)?;
    match Mark::read(alloc, &read) {
        Ok(mark) => written(alloc, &mark, &mark.write(alloc)?),
        Err(fault) => said(alloc, &fault),
    }
}

fn written(alloc: Global, mark: &Mark, text: &MarkText) -> Result<String, Fail> {
    Ok(format!(in alloc;
        "{mark:?}, floor {}, {}",
        mark.floor_of(),
        shown(text.bytes())
    )?)
}

/// The boot mark of a text, and the text that it is written as.
pub fn boot_mark_answer(alloc: Global, words: &str) -> Result<String, Fail> {
    let read = mark_text(alloc, words)?;
    match read_boot(alloc, &read) {
        Ok(mark) => boot_written(alloc, &mark, &boot_text(alloc, &mark)?),
        Err(fault) => said(alloc, &fault),
    }
}

fn boot_written(alloc: Global, mark: &BootMark, text: &MarkText) -> Result<String, Fail> {
    Ok(format!(in alloc; "{mark:?}, {}", shown(text.bytes()))?)
}
