// The search for the free block that was erased least.
ghost use Rattle.std.specs.Prelude.{◌≡◌, ◌<◌, ◌≤◌, ◌↔◌, IsTrue, IfSome, count_by, length};
ghost use Rattle.block_pool.specs.Least.{IsBetter, IsLeast};

/// The number of the free block with the least count, and the lowest number among those. Some
/// block of the at most 512 is free.
pub(crate) fn least_worn(free: &[bool], wear: &[u32]) -> u32
    requires some { 0 < count_by (λ mark. mark) free.now }
    requires same { length free.now ≡ length wear.now }
    requires many { length free.now ≤ 512 }
    ensures within { result < length free.now }
    ensures least { IsLeast free.now wear.now (length free.now) result }
{
    let mut least = None;
    for block in 0..free.len() {
        if free[block] && is_better(wear, block, least) {
            least = Some(block);
        }
    }
    least.unwrap_or(0) as u32
}

// Whether the block was erased less often than the one found before, if any.
fn is_better(wear: &[u32], block: usize, least: Option<usize>) -> bool
    requires block { block < length wear.now }
    requires least { IfSome least (λ best. best < length wear.now) }
    ensures { IsTrue result ↔ IsBetter wear.now block least }
{
    match least {
        None => true,
        Some(best) => wear[block] < wear[best],
    }
}
