// Limits of stores (ECSS-E-ST-70-41C, 6.15.3).
ghost use Rattle.std.specs.Prelude.{◌≡◌};
ghost use Rattle.pst_model.specs.Stores.{is_channel, is_size};

/// The most stores that may stand.
pub(crate) const MOST_STORES: u32 = 32;

/// The most patterns of a list.
pub(crate) const MOST_PATTERNS: usize = 64;

/// The blocks of a device that no store may reserve.
pub(crate) const SPARE_BLOCKS: u32 = 8;

// Whether a store may have this size, in pages.
pub(crate) fn is_size(size: u32) -> bool
    ensures { result ≡ is_size size }
{
    (1..=100_000).contains(&size)
}

// Whether a store may have this channel.
pub(crate) fn is_channel(channel: u8) -> bool
    ensures { result ≡ is_channel channel }
{
    (1..=7).contains(&channel)
}
