// What no clause says: that a text is written at all.
use super::*;
use store_directory::Change;

#[test]
fn changes_are_written_one_behind_another(rt: HostRuntime) {
    let mut text = EntryText::new();
    assert!(rt; text.octets().is_empty());
    text.push(&Change::Clock {
        now: 0x0100_0000_0010,
        reports: 0x0203,
    });
    text.push(&Change::Gone(0x0405));
    assert!(rt; text.octets() == [1, 1, 0, 0, 0, 0, 16, 2, 3, 3, 4, 5].as_slice());
}
