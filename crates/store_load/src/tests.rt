// Which stores may share a device.
ghost use Rattle.std.specs.Prelude.{◌≤◌, IfOk};
ghost use Rattle.store_load.specs.Taking.{AllAreFree};

use super::*;
use block_pool::Pool;
use control_defs::StoreKind;
use record_view::Link;
use std::alloc::{AllocError, Global};
use std::test::Fail;
use store_directory::{ApplyFault, Change, Directory, Row};

pub(crate) const ROW: Row = Row {
    identifier: 1,
    kind: StoreKind::Circular,
    size: 240,
    channel: 1,
    storage: true,
    open_on: true,
    told: false,
    first: 0,
    count: 0,
    behind: 0,
    range: None,
};

fn data_blocks(alloc: Global) -> Result<Pool, AllocError>
    ensures { IfOk result AllAreFree }
{
    Pool::new(alloc, 16)
}

fn put(
    directory: &mut Directory,
    alloc: Global,
    identifier: u16,
    size: u32,
) -> Result<(), ApplyFault> {
    directory.apply(
        alloc,
        &Change::Put(Row {
            identifier,
            size,
            ..ROW
        }),
    )
}

fn link(
    directory: &mut Directory,
    alloc: Global,
    store: u16,
    blocks: &[u16],
) -> Result<(), ApplyFault> {
    for block in blocks {
        let links = [Link {
            block: *block,
            first: 0,
        }];
        directory.apply(
            alloc,
            &Change::Links {
                store,
                links: &links,
            },
        )?;
    }
    Ok(())
}

// The directory of two stores of these sizes, with these blocks.
fn two_stores(alloc: Global, sizes: [u32; 2], blocks: [&[u16]; 2]) -> Result<Directory, Fail> {
    let mut directory = Directory::new(alloc)?;
    put(&mut directory, alloc, 1, sizes[0])?;
    put(&mut directory, alloc, 2, sizes[1])?;
    link(&mut directory, alloc, 1, blocks[0])?;
    link(&mut directory, alloc, 2, blocks[1])?;
    Ok(directory)
}

// The rule of this many pages in use, 1 to 256.
fn rule(least: u32) -> Rule
    ensures { (1 ≤ result.least) × (result.least ≤ 256) }
{
    Rule {
        least: least.clamp(1, 256),
        largest: 4096,
    }
}

#[test]
fn stores_share_a_device_if_their_blocks_differ(rt: HostRuntime) -> Result<(), Fail> {
    let cases: [(u32, [u32; 2], [&[u16]; 2], bool); 9] = [
        (240, [240, 240], [&[7, 15], &[9]], true),
        (240, [240, 240], [&[7, 9, 7], &[]], false),
        (240, [240, 240], [&[7, 9], &[9]], false),
        (240, [240, 240], [&[6], &[]], false),
        (240, [240, 240], [&[16], &[]], false),
        (240, [240, 480], [&[7], &[9]], false),
        (120, [240, 120], [&[7], &[9]], false),
        (256, [240, 512], [&[7, 8, 9], &[]], true),
        (256, [240, 512], [&[7, 8, 9, 10], &[]], false),
    ];
    for (least, sizes, blocks, may_share) in cases {
        let directory = two_stores(rt.alloc(), sizes, blocks)?;
        let mut pool = data_blocks(rt.alloc())?;
        let may = claim(&directory, &mut pool, rule(least));
        assert_eq!(rt; may, may_share, "{blocks:?}");
    }
    Ok(())
}

#[test]
fn a_claim_takes_the_linked_blocks(rt: HostRuntime) -> Result<(), Fail> {
    let directory = two_stores(rt.alloc(), [240, 240], [&[7, 15], &[9]])?;
    let mut pool = data_blocks(rt.alloc())?;
    assert!(rt; claim(&directory, &mut pool, rule(240)));
    assert_eq!(rt; pool.free(), 6);
    assert!(rt; !pool.is_free(7) && !pool.is_free(9) && !pool.is_free(15));
    Ok(())
}
