// Plans of puts.
ghost use Rattle.std.specs.Prelude.{◌≡◌, ◌≤◌, IfErr, IfOk, false, length, true};
ghost use Rattle.space_packet.specs.Charge.{charge_of};
ghost use Rattle.pst_model.specs.Least.{IsLeast};
ghost use Rattle.pst_model.specs.Rules.{free_of, is_refused, to_drop};
ghost use Rattle.pst_model.specs.Table.{Store};
ghost use Rattle.store_policy.specs.Plans.{has_room_behind};
ghost use Rattle.store_policy.specs.Shown.{AreTogether, IsShown};
ghost use Rattle.time_index.specs.TimeIndex.{pages_of};

use control_defs::StoreKind;
use space_packet::charge;
use store_directory::Row;
use time_index::Index;

/// A store refuses a packet. Both numbers are pages.
#[derive(Clone, Copy, Debug, PartialEq, Eq)]
pub struct Full {
    /// What the packet takes.
    pub need: u32,
    /// The size of the store without its content.
    pub free: u32,
}

/// How many packets leave the front of a store for one of so many octets, 65,542 at most: the fewest
/// behind which there is room (ECSS-E-ST-70-41C, 6.15.3). `Full` where the store refuses it: a
/// circular store if its size is too small, a bounded one if there is no room. Row and index are
/// those of one store, whose packets take no more pages than it has.
pub fn plan_put(row: &Row, index: &Index, length: u32) -> Result<u32, Full>
    requires together { AreTogether row.now index.now }
    requires filled { pages_of index.now.entries ≤ index.now.size }
    requires length { length ≤ 65542 }
    ensures plan { IfOk result (λ leaving. (store : Store) → IsShown store row.now index.now
        → (is_refused store (charge_of length) ≡ false)
        × (leaving ≡ to_drop store (charge_of length))) }
    ensures within { IfOk result (λ leaving. leaving ≤ row.now.count) }
    ensures full { IfErr result (λ full. (store : Store) → IsShown store row.now index.now
        → (is_refused store (charge_of length) ≡ true)
        × (full.need ≡ charge_of length) × (full.free ≡ free_of store)) }
{
    let need = charge(length);
    let free = index.size() - index.pages();
    if is_refused(row, need, free) {
        return Err(Full { need, free });
    }
    Ok(fewest_leaving(index, need))
}

// Whether a store with so many free pages refuses a packet that takes so many.
fn is_refused(row: &Row, need: u32, free: u32) -> bool
    ensures rule { (store : Store) → store.kind ≡ row.now.kind → store.size ≡ row.now.size
        → free_of store ≡ free → result ≡ is_refused store need }
    ensures within { result ≡ false → need ≤ row.now.size }
{
    row.size < need || (row.kind == StoreKind::Bounded && free < need)
}

// How many entries at the front are the fewest without which there is room for so many pages. The
// running total is that of the pages that are free.
fn fewest_leaving(index: &Index, need: u32) -> u32
    requires filled { pages_of index.now.entries ≤ index.now.size }
    requires need { need ≤ index.now.size }
    ensures least { IsLeast (has_room_behind index.now need) result }
    ensures within { result ≤ length index.now.entries }
{
    let mut free = index.size() - index.pages();
    'entries: for count in 0..index.len() {
        if free >= need {
            return count;
        }
        free += charge(u32::from(index.entry(count).length));
    }
    index.len()
}
