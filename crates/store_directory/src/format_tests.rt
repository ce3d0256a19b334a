// The checkpoint of a format by its octets, written out by hand, and directories that differ in one
// thing.

use crate::change::Change;
use crate::checkpoint_tests::ROW;
use crate::directory::Directory;
use crate::first_checkpoint::write_first_checkpoint;
use crate::row::Row;
use control_defs::Pattern;
use std::test::Fail;

// The time, the reports, no forward pattern, one store with its row, one pattern and no link.
const FRONT: [u8; 47] = [
    0, 0, 0, 0, 0, 0, 0, 0, 0, 1, 0, 1, 0, 0, 0, 0, 64, 1, 3, 0, 0, 0, 0, 0, 0, 0, 0, 0, 0, 0, 0,
    0, 0, 0, 0, 0, 0, 0, 0, 1, 0, 0, 0, 0, 0, 0, 0,
];

#[test]
fn a_first_checkpoint_has_47_octets_and_four_for_each_block(rt: HostRuntime) {
    let mut out = [7; 120];
    assert_eq!(rt; write_first_checkpoint(16, &mut out), 111);
    assert!(rt; out.starts_with(&FRONT));
    assert!(rt; out.iter().skip(47).take(64).all(|octet| *octet == 0));
    assert!(rt; out.iter().skip(111).all(|octet| *octet == 7));
}

#[test]
fn directories_are_the_same_by_what_they_hold(rt: HostRuntime) -> Result<(), Fail> {
    let alloc = rt.alloc();
    let mut one = Directory::new(alloc)?;
    let mut other = Directory::new(alloc)?;
    let changes = [
        Change::Clock {
            now: 16,
            reports: 1,
        },
        Change::Forward {
            add: true,
            pattern: Pattern::App(5),
        },
        Change::Put(ROW),
        Change::Types {
            store: 1,
            add: true,
            pattern: Pattern::Every,
        },
        Change::Put(Row { told: true, ..ROW }),
        Change::Put(Row {
            range: Some((0, 1)),
            ..ROW
        }),
        Change::Put(Row {
            identifier: 2,
            ..ROW
        }),
    ];
    assert!(rt; one.same(&other));
    for change in &changes {
        assert!(rt; one.apply(alloc, change).is_ok());
        assert!(rt; !one.same(&other));
        assert!(rt; other.apply(alloc, change).is_ok());
        assert!(rt; one.same(&other));
    }
    Ok(())
}
