// The refusals of a packet that have to be told.
ghost use Rattle.std.specs.Prelude.{◌≡◌, ◌≤◌, ◌<◌, ◌++◌, ℕ, List, All, flat_map, length, map};
ghost use Rattle.std.specs.Option.{option_to_list};
ghost use Rattle.pst_model.specs.Arrivals.{offer_report};
ghost use Rattle.pst_model.specs.Table.{Store, Stored};
ghost use Rattle.space_packet.specs.View.{octets_of};
ghost use Rattle.store_policy.specs.Shown.{AreAllTogether, AreShown, AreTogether, IsShown};
ghost use Rattle.store_put.specs.Refusals.{IsFilled, offer_refusal, refusals_of, report_of};
ghost use Rattle.time_index.specs.TimeIndex.{pages_of};

use crate::plan::{Plan, plan_of};
use arrayvec::ArrayVec;
use control_defs::Patterns;
use space_packet::PacketView;
use store_directory::{Directory, Row};
use time_index::Index;

/// A store refused a packet, and had not told a refusal since its last put. Both numbers are pages.
#[derive(Clone, Copy, Debug, Default, PartialEq, Eq)]
pub struct RefusedPut {
    /// The store's identifier.
    pub store: u16,
    /// What the packet takes.
    pub need: u32,
    /// The size of the store without its content.
    pub free: u32,
}

/// Each refusal that is told is one report of the model, with the store and its two numbers.
pub fn refusals_are_reported()
    ensures { (stored : Stored) (stores : List Store)
        → map report_of (refusals_of stored.octets stores) ≡ flat_map (offer_report stored) stores }
{}

// The refusal of one store, if it has to be told.
fn refusal_of(
    row: &Row,
    patterns: &Patterns,
    index: &Index,
    packet: &PacketView<'_>,
) -> Option<RefusedPut>
    requires together { AreTogether row.now index.now }
    requires filled { pages_of index.now.entries ≤ index.now.size }
    ensures { (store : Store) → IsShown store row.now index.now → store.patterns ≡ patterns.now
        → offer_refusal (octets_of packet.now) store ≡ option_to_list result }
{
    match plan_of(row, patterns, index, packet) {
        Plan::Stays => None,
        Plan::Takes(_) => None,
        Plan::Refuses(full) => {
            if row.told {
                return None;
            }
            Some(RefusedPut {
                store: row.identifier,
                need: full.need,
                free: full.free,
            })
        }
    }
}

// One refusal more, if there is one.
fn push_found(refused: &mut ArrayVec<RefusedPut, 32>, found: Option<RefusedPut>)
    requires { length refused.old.items < 32 }
    ensures { refused.new.items ≡ refused.old.items ++ option_to_list found }
{
    if let Some(refusal) = found {
        refused.push(refusal);
    }
}

/// The refusals of a packet that have to be told, in the order of the stores. Each row and its index
/// are those of one store, whose packets take no more pages than it has.
pub fn refusals_of(
    directory: &Directory,
    indexes: &[Index],
    packet: &PacketView<'_>,
) -> ArrayVec<RefusedPut, 32>
    requires together { AreAllTogether directory.now.stores indexes.now }
    requires filled { All IsFilled indexes.now }
    ensures { (stores : List Store) → AreShown stores directory.now.stores indexes.now
        → result.items ≡ refusals_of (octets_of packet.now) stores }
{
    let mut refused = ArrayVec::new();
    for at in 0..directory.len() {
        let found = refusal_of(
            directory.row(at),
            directory.patterns(at),
            &indexes[at as usize],
            packet,
        );
        push_found(&mut refused, found);
    }
    refused
}
