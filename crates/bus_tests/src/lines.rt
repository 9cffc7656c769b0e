use std::alloc::Global;
use std::test::Fail;
use trace_script::{LineFault, read_line, write_line};

/// What is written of the line that the text spells.
fn written_again(alloc: Global, text: &[u8]) -> Result<Vec<u8>, LineFault> {
    let line = read_line(alloc, text)?;
    let mut out = Vec::new(alloc);
    write_line(alloc, &line, &mut out)?;
    Ok(out)
}

#[test]
fn each_kind_of_line_is_written_as_it_was_read(rt: HostRuntime) -> Result<(), Fail> {
    for text in [
        b"".as_slice(),
        b"relay 268435456 65536",
        b"consumer abcdefghijklmnop 0*;1%16:0,3;2/1000:7",
        b"commit 18446744073709551615 1/2=0aff 1/2- 0/0=",
        b"feed 1",
        b"poll 0_z 16777216",
        b"show all",
        b"crash c1",
        b"stop c1 before",
        b"stop c1 after",
        b"stream 9223372036854775807 all 16777216",
        b"log 1000000",
        b"apply 1",
        b"trim 9223372036854775807",
        b"restart boot",
    ] {
        let again = written_again(rt.alloc(), text).ok().ok_or("a line")?;
        assert_eq!(rt; again.as_slice(), text);
    }
    Ok(())
}
