// The index against a plain list, each call once, and the largest size.
ghost use Rattle.std.specs.Prelude.{◌≡◌};

use super::*;
use std::test::Fail;

// An entry with this stamp and this length, in octets.
fn entry(stamp: u64, length: u16) -> Entry
    ensures { result ≡ record { stamp = stamp; block = 7; page = 0; length = length } }
{
    Entry {
        stamp,
        block: 7,
        page: 0,
        length,
    }
}

// Whether the index has these entries and no other, and finds and counts them as a plain list does.
fn shows(index: &Index, entries: &[Entry], t: u64) -> bool {
    let mut pages = 0_u64;
    let mut below = 0_u64;
    let mut up_to = 0_u64;
    if index.len() as usize != entries.len() {
        return false;
    }
    for (i, entry) in entries.iter().enumerate() {
        if i >= index.len() as usize || index.entry(i as u32) != *entry {
            return false;
        }
        pages = pages.wrapping_add((u64::from(entry.length) + 16).div_ceil(256));
        if entry.stamp < t {
            below = below.wrapping_add(1);
        }
        if entry.stamp <= t {
            up_to = up_to.wrapping_add(1);
        }
    }
    u64::from(index.pages()) == pages
        && u64::from(index.first_at(t)) == below
        && u64::from(index.first_after(t)) == up_to
}

// Puts an entry at the end, if the contract of `push` allows it.
fn pushes(index: &mut Index, entry: Entry) -> bool {
    if index.len() >= index.size() {
        return false;
    }
    if index.len() > 0 && index.entry(index.len() - 1).stamp > entry.stamp {
        return false;
    }
    index.push(entry);
    true
}

#[test]
fn pushes_and_drops_are_those_of_a_list(rt: HostRuntime) -> Result<(), Fail> {
    let mut index = Index::new(rt.alloc(), 16, 4_294_967_290)?;
    let mut list = Vec::new(rt.alloc());
    let mut first = 4_294_967_290_u32;
    for step in 0..10_000_u32 {
        let next = entry(u64::from(step) / 3 * 2, (step * 37 % 4097) as u16);
        assert!(rt; pushes(&mut index, next), "step {step}");
        list.push(next)?;
        let count = if list.len() == 16 {
            step % 17
        } else {
            step % 3 / 2
        };
        assert!(rt; count as usize <= list.len() && count <= index.len());
        index.drop_front(count);
        list.drain(..count as usize);
        first = first.wrapping_add(count);
        assert_eq!(rt; index.first(), first, "step {step}");
        let at = u64::from(step) / 3 * 2;
        let t = at.saturating_sub(u64::from(step % 9));
        assert!(rt; shows(&index, &list, t), "step {step}");
    }
    Ok(())
}

#[test]
fn stamps_are_found_and_pages_counted(rt: HostRuntime) -> Result<(), Fail> {
    let mut index = Index::new(rt.alloc(), 3, 4_294_967_295)?;
    assert!(rt; pushes(&mut index, entry(5, 20)));
    assert!(rt; pushes(&mut index, entry(5, 300)));
    assert!(rt; !pushes(&mut index, entry(4, 20)));
    assert!(rt; pushes(&mut index, entry(9, 4_096)));
    assert!(rt; !pushes(&mut index, entry(9, 20)));
    assert_eq!(rt; index.pages(), 1 + 2 + 17);
    assert_eq!(rt; index.first_at(5), 0);
    assert_eq!(rt; index.first_after(5), 2);
    assert_eq!(rt; index.first_at(9), 2);
    assert_eq!(rt; index.first_after(u64::MAX), 3);
    Ok(())
}

#[test]
fn a_resized_index_has_the_same_entries(rt: HostRuntime) -> Result<(), Fail> {
    let mut index = Index::new(rt.alloc(), 2, 4_294_967_295)?;
    index.push(entry(5, 20));
    let moved = Entry {
        block: 8,
        ..index.entry(0)
    };
    index.replace(0, moved);
    assert!(rt; pushes(&mut index, entry(9, 4_096)));
    assert!(rt; shows(&index, &[moved, entry(9, 4_096)], 9));
    let wide = index.resized(rt.alloc(), 100_000)?;
    assert!(rt; index.len() == 2);
    index.drop_front(1);
    assert!(rt; shows(&wide, &[moved, entry(9, 4_096)], 9));
    assert!(rt; shows(&index, &[entry(9, 4_096)], 9));
    assert_eq!(rt; (wide.size(), wide.first()), (100_000, 4_294_967_295));
    assert_eq!(rt; (index.size(), index.first()), (2, 0));
    Ok(())
}

#[test]
fn a_hundred_thousand_entries(rt: HostRuntime) -> Result<(), Fail> {
    let mut index = Index::new(rt.alloc(), 100_000, 0)?;
    for stamp in 0..100_000_u64 {
        assert!(rt; pushes(&mut index, entry(stamp * 2, 65_535)));
    }
    assert_eq!(rt; index.pages(), 25_700_000);
    assert_eq!(rt; index.first_at(100_000), 50_000);
    assert_eq!(rt; index.first_after(100_000), 50_001);
    assert!(rt; !pushes(&mut index, entry(200_000, 20)));
    let all = index.len();
    index.drop_front(all);
    assert_eq!(rt; index.pages(), 0);
    assert_eq!(rt; index.first(), 100_000);
    Ok(())
}
