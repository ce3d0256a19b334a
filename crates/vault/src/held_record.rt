// The record that was fetched last.
//
// It has a buffer of its own, so that a view of it may be lent while the flash is read or written.
ghost use Rattle.std.specs.Prelude.{◌≡◌, ◌<◌, ◌^◌, [], IfOk};
ghost use Rattle.record_view.specs.View.{meaning_of};
ghost use Rattle.space_packet.specs.Packet.{IsPacket};

use octet_fields::put_octets;
use record_view::RecordView;
use space_packet::PacketView;
use std::alloc::{AllocError, Global};
use std::marker::Model;

/// The octets of the longest packet.
const LONGEST: usize = 4096;

/// A record, with room for the longest packet.
#[derive(Drop)]
pub(crate) struct HeldRecord {
    number: u32,
    stamp: u64,
    // the octets of the packet
    size: u32,
    octets: Vec<u8>,
}

impl Model for HeldRecord {
    ghost use Rattle.std.specs.Prelude.{◌≡◌, ◌<◌, ◌≤◌, ◌^◌, length, take};
    ghost use Rattle.record_view.specs.Records.{Meaning};

    ghost Value = { Meaning };

    ghost view = { λ held. record {
      number = held.number;
      stamp = held.stamp;
      packet = take held.size held.octets.items;
    } };

    ghost invariant = { λ held. (length held.octets.items ≡ 4096) × (held.size ≤ 4096)
        × (held.stamp < 2 ^ 48) };
}

impl HeldRecord {
    /// No record was fetched yet.
    pub(crate) fn new(alloc: Global) -> Result<HeldRecord, AllocError>
        ensures { IfOk result
            (λ held. held ≡ record { number = 0; stamp = 0; packet = [] }) }
    {
        Ok(HeldRecord {
            number: 0,
            stamp: 0,
            size: 0,
            octets: vec![in alloc; 0; LONGEST]?,
        })
    }

    /// Keeps a record, whose stamp is below 2^48.
    pub(crate) fn keep(&mut self, found: RecordView<'_>)
        requires { found.stamp < 2 ^ 48 }
        ensures { self.new ≡ meaning_of found.entry }
    {
        let bytes = found.packet.bytes();
        put_octets(&mut self.octets, 0, bytes);
        self.number = found.number;
        self.stamp = found.stamp;
        self.size = bytes.len() as u32;
    }

    /// The record that is kept, of a whole packet.
    pub(crate) fn view(&self) -> RecordView<'_>
        requires { IsPacket self.now.packet }
        ensures same { meaning_of result ≡ self.now }
        ensures stamp { result.stamp < 2 ^ 48 }
    {
        RecordView {
            number: self.number,
            stamp: self.stamp,
            packet: PacketView::new(&self.octets[..self.size as usize]),
        }
    }
}
