// How many blocks packets of so many pages take.
ghost use Rattle.std.specs.Prelude.{◌≡◌, ◌↔◌, ◌<◌, ◌≤◌, ◌+◌, ◌-◌, ◌^◌, IsTrue};
ghost use Rattle.block_pool.specs.Sizes.{blocks_for_size};

/// The blocks that a store of this size, in pages, takes at most.
pub fn blocks_for(size: u32) -> u32
    ensures { result ≡ blocks_for_size size }
{
    size / 240 + 3
}

/// Whether the blocks that are reserved, less these `old` ones and with these `new` ones, are at
/// most the data blocks but one. `old` is at most `reserved`, `reserved` and `new` are below 2^31,
/// and the device has `blocks` blocks, 16 to 512.
pub fn fits(reserved: u32, new: u32, old: u32, blocks: u32) -> bool
    requires old { old ≤ reserved }
    requires reserved { reserved < 2 ^ 31 }
    requires new { new < 2 ^ 31 }
    requires few { 16 ≤ blocks }
    requires many { blocks ≤ 512 }
    ensures { IsTrue result ↔ (reserved - old + new ≤ blocks - 8) }
{
    reserved - old + new <= blocks - 8
}
