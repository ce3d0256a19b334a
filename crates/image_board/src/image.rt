// The file of a device: page p of block b begins at octet (b * 256 + p) * 256. An erased block holds
// 255 in all its 65,536 octets.
ghost use Rattle.std.specs.Prelude.{◌≡◌, ◌+◌, ◌*◌, ◌<◌, ◌≤◌};
ghost use Rattle.image_board.specs.Image.{blocks_at};

use std::fs::File;
use std::io;
use std::os::unix::fs::FileExt;

/// The octets of a block: 256 pages of 256 octets.
const BLOCK: u64 = 65_536;

/// The octets that one write of an erase covers.
const PIECE: usize = 4_096;

/// The pieces of a block.
const PIECES: u32 = 16;

/// What an erased block holds, piece by piece.
static ERASED: [u8; PIECE] = [255; PIECE];

/// The octet of the file at which a page begins.
pub fn offset_of(block: u32, page: u32) -> u64
    requires block { block < 512 }
    requires page { page < 256 }
    ensures { result ≡ (block * 256 + page) * 256 }
{
    (u64::from(block) * 256 + u64::from(page)) * 256
}

/// Writes 255 to each octet of at most 512 blocks, the first of which begins at this offset.
pub fn erase_blocks(file: &File, offset: u64, blocks: u32) -> io::Result<()>
    requires offset { offset < 33554432 }
    requires blocks { blocks ≤ 512 }
{
    for piece in 0..blocks * PIECES {
        file.write_all_at(&ERASED, offset + u64::from(piece) * PIECE as u64)?;
    }
    Ok(())
}

/// Makes the file a device of this many erased blocks, at most 512, which is durable when this returns
/// Ok. The folder of the file is the caller's to sync.
pub fn make_blank(file: &File, blocks: u32) -> io::Result<()>
    requires { blocks ≤ 512 }
{
    erase_blocks(file, 0, blocks)?;
    file.set_len(u64::from(blocks) * BLOCK)?;
    file.sync_all()
}

/// The number of blocks of a device whose file has this many octets: a whole number of blocks, 16 to 512.
pub fn blocks_of(octets: u64) -> Option<u32>
    ensures { result ≡ blocks_at octets }
{
    let blocks = octets / BLOCK;
    if octets % BLOCK != 0 || blocks < 16 || blocks > 512 {
        return None;
    }
    Some(blocks as u32)
}
