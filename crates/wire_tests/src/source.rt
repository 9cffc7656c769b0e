use bus_types::{Change, Key};
use source_db::SourceDb;
use std::test::Fail;

#[test]
fn commits_are_taken_in_order(rt: HostRuntime) -> Result<(), Fail> {
    let mut source = SourceDb::new(rt.alloc());
    for scn in [5, 6, 9] {
        let mut changes = Vec::new(rt.alloc());
        changes.push(Change {
            source: 7,
            key: Key::Long(scn),
            put: None,
        })?;
        assert_eq!(rt; source.commit(rt.alloc(), scn, changes), Ok(()));
    }
    assert_eq!(rt; (source.last(), source.count()), (9, 3));
    assert_eq!(rt; source.windows_between(5, 8).len(), 1);
    Ok(())
}
