// The packet that a grant sends.
ghost use Rattle.std.specs.Prelude.{◌≡◌, ◌<◌, All, IfSome, length};
ghost use Rattle.retrieval.specs.Grants.{IsHeld};
ghost use Rattle.retrieval.specs.Picks.{first_pick, has_ahead, has_range, open_pick, pick_of, range_pick};
ghost use Rattle.store_directory.specs.Directory.{IsListed};

use store_directory::{Directory, Row};

/// The packet that a grant sends.
#[derive(Clone, Copy, Debug, PartialEq, Eq)]
pub struct Pick {
    /// The place of its store.
    pub at: u32,
    /// Its position in the store, counted from 0 at the front.
    pub position: u32,
    /// The virtual channel of the store, 1 to 7.
    pub channel: u8,
    /// Whether a range retrieval sends it, and not open retrieval.
    pub range: bool,
}

// The next packet of the first range.
fn of_ranges(directory: &Directory) -> Option<Pick>
    ensures first { result ≡ first_pick has_range range_pick 0 directory.now.stores }
    ensures kept { All IsListed directory.now.stores }
{
    for at in 0..directory.len() {
        let row = directory.row(at);
        if let Some((next, _)) = row.range {
            return Some(Pick {
                at,
                position: next,
                channel: row.channel,
                range: true,
            });
        }
    }
    None
}

// Whether open retrieval is on and has packets ahead.
fn has_packets_ahead(row: &Row) -> bool
    ensures { result ≡ has_ahead row.now }
{
    row.open_on && row.behind < row.count
}

// The next packet of the first store whose open retrieval has packets ahead.
fn of_open_retrieval(directory: &Directory) -> Option<Pick>
    ensures { result ≡ first_pick has_ahead open_pick 0 directory.now.stores }
{
    for at in 0..directory.len() {
        let row = directory.row(at);
        if has_packets_ahead(row) {
            return Some(Pick {
                at,
                position: row.behind,
                channel: row.channel,
                range: false,
            });
        }
    }
    None
}

/// The packet that a grant sends: the next one of the first store with a range; where there is
/// none, of the first store whose open retrieval is on and has packets ahead. None where there is no
/// such store either. The row of its store and the pick are such as `after_sent` takes.
#[tactic(auto, using(crate::proofs::Firsts::result_held, crate::proofs::Firsts::result_within))]
pub fn next_of(directory: &Directory) -> Option<Pick>
    ensures pick { result ≡ pick_of directory.now.stores }
    ensures within { IfSome result (λ pick. pick.at < length directory.now.stores) }
    ensures held { IfSome result (IsHeld directory.now.stores) }
{
    of_ranges(directory).or_else(|| of_open_retrieval(directory))
}
