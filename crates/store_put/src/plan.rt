// What a store does with a packet that arrives.
ghost use Rattle.std.specs.Prelude.{◌≡◌, ◌≤◌, ℕ};
ghost use Rattle.pst_model.specs.Table.{Store};
ghost use Rattle.space_packet.specs.View.{octets_of};
ghost use Rattle.store_policy.specs.Shown.{AreTogether, IsShown};
ghost use Rattle.store_put.specs.Plans.{IsPlanOf, leaving_of};
ghost use Rattle.time_index.specs.TimeIndex.{pages_of};

use control_defs::Patterns;
use pus_header::key_of;
use space_packet::PacketView;
use store_directory::Row;
use store_policy::{Full, plan_put};
use time_index::Index;

/// What a store does with a packet that arrives.
#[derive(Clone, Copy, Debug, PartialEq, Eq)]
pub enum Plan {
    /// The packet is not offered to it: storage is off, or none of its patterns covers the packet.
    Stays,
    /// It has no room for the packet.
    Refuses(Full),
    /// It takes the packet, behind so many packets that leave its front.
    Takes(u32),
}

/// The plan of a store by its row, its patterns and its index, which are those of one store whose
/// packets take no more pages than it has.
pub fn plan_of(row: &Row, patterns: &Patterns, index: &Index, packet: &PacketView<'_>) -> Plan
    requires together { AreTogether row.now index.now }
    requires filled { pages_of index.now.entries ≤ index.now.size }
    ensures plan { (time : ℕ) (store : Store) → IsShown store row.now index.now
        → store.patterns ≡ patterns.now
        → IsPlanOf (record { time = time; octets = octets_of packet.now }) store result }
    ensures within { leaving_of result ≤ row.now.count }
{
    if !row.storage || !patterns.covers(&key_of(packet)) {
        return Plan::Stays;
    }
    match plan_put(row, index, packet.bytes().len() as u32) {
        Ok(leaving) => Plan::Takes(leaving),
        Err(full) => Plan::Refuses(full),
    }
}
