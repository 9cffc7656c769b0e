use bus_types::{Accepts, Key};
use partition_filter::{Filter, FilterFault};
use std::alloc::Global;
use std::test::Fail;

/// The text of a copy of the filter that the text spells.
fn written(alloc: Global, text: &str) -> Result<String, FilterFault> {
    let filter = Filter::read(alloc, text)?;
    let copy = filter.copy(alloc)?;
    Ok(copy.write(alloc)?)
}

#[test]
fn filters_are_written_as_they_were_read(rt: HostRuntime) -> Result<(), Fail> {
    for text in [
        "all",
        "0%2:1;3*",
        "7%1:0;8/1:0,1,18446744073709551615;65535*",
    ] {
        assert_eq!(rt; written(rt.alloc(), text)?.as_str(), text);
    }
    Ok(())
}

#[test]
fn a_filter_accepts_by_source_and_key(rt: HostRuntime) -> Result<(), Fail> {
    let filter = Filter::read(rt.alloc(), "0/100:2;1*")?;
    assert!(rt; !filter.accepts(0, &Key::Long(199)));
    assert!(rt; filter.accepts(0, &Key::Long(200)));
    assert!(rt; filter.accepts(1, &Key::Long(200)));
    assert!(rt; !filter.accepts(2, &Key::Long(200)));
    Ok(())
}
