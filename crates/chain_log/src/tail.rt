// The block at the end of a chain.
//
// Its pages below `used` hold records, one behind the other from page 0 on. Those from `used` on
// are clean: that is the caller's to know, and what `begin` and `append` leave.
ghost use Rattle.std.specs.Prelude.{◌≡◌, ◌<◌, ◌≤◌, ◌+◌, ◌*◌, ◌^◌, nat_le, length, Some};
ghost use Rattle.std.specs.Prelude.{IfOk, OnOk, OnErr};
ghost use Rattle.board.specs.Counts.{Rose, RoseBy};
ghost use Rattle.board.specs.Flash.{firm, pages_from, pages_of_block, wiped};
ghost use Rattle.board.specs.Meaning.{TellsFlash};
ghost use Rattle.board.specs.Touches.{SameElsewhere, Touches};
ghost use Rattle.space_packet.specs.Charge.{charge_of};
ghost use Rattle.space_packet.specs.View.{octets_of};
ghost use Rattle.record_view.specs.Records.{record_at};
ghost use Rattle.chain_log.specs.Pages.{IsCleanFrom, IsDataBlock, block_octets, with_record};
ghost use Rattle.chain_log.specs.Tails.{after_append};

use crate::pages::write_pages;
use board::{Board, Failed};
use record_view::write_record;
use space_packet::{PacketView, charge};
use std::marker::Model;

/// The pages of a block.
const PAGES: u32 = 256;

/// A data block to which records are appended, and how many of its pages are taken.
#[derive(Drop)]
pub struct Tail {
    block: u32,
    used: u32,
}

impl Model for Tail {
    ghost use Rattle.std.specs.Prelude.{◌≤◌};
    ghost use Rattle.chain_log.specs.Tails.{Filling};

    ghost Value = { Filling };

    ghost view = { λ tail. record { block = tail.block; used = tail.used } };

    ghost invariant = { λ tail. tail.used ≤ 256 };
}

impl Tail {
    /// Erases a data block, 7 or more, and makes it durable that it is blank, so all its pages are
    /// clean. `Failed`: the erase or the barrier failed; until it is erased again, any octets may
    /// be in its pages. No other page changes.
    pub fn begin<B: Board>(board: &mut B, block: u32) -> Result<Tail, Failed>
        requires { IsDataBlock (B.means.device board.old).blocks block }

        ensures tail { IfOk result (λ tail. tail ≡ record { block = block; used = 0 }) }
        ensures flash { OnOk result (TellsFlash B.means board.old → B.means.flash board.new
            ≡ firm (wiped (pages_of_block block) (B.means.flash board.old))) }
        ensures clean { OnOk result (TellsFlash B.means board.old
            → IsCleanFrom (B.means.flash board.new) block 0) }
        ensures seen { OnOk result (TellsFlash B.means board.old → B.means.images
            board.new (B.means.moment board.new) (B.means.flash board.new).content) }

        // No other page is touched, also where a call failed.
        ensures touches { Touches B.means (pages_of_block block) 0 1 1 board.old board.new }
        ensures erases { OnOk result
            (RoseBy 1 (B.means.counts board.old).erases (B.means.counts board.new).erases) }
        ensures barriers { OnOk result
            (RoseBy 1 (B.means.counts board.old).barriers (B.means.counts board.new).barriers) }
        ensures no_fault { OnOk result
            ((B.means.counts board.new).flash_faults ≡ (B.means.counts board.old).flash_faults) }
        ensures cause { OnErr result
            (Rose (B.means.counts board.old).flash_faults (B.means.counts board.new).flash_faults) }
    {
        board.erase(block)?;
        board.barrier()?;
        Ok(Tail::ready(block))
    }

    /// A tail of a block that holds no record. To append to it, its pages have to be clean.
    pub fn ready(block: u32) -> Tail
        ensures { result ≡ record { block = block; used = 0 } }
    {
        Tail { block, used: 0 }
    }

    /// A tail of a block of which so many pages are taken, at most 256. To append to it, the others
    /// have to be clean.
    pub fn at(block: u32, used: u32) -> Tail
        requires { used ≤ 256 }
        ensures { result ≡ record { block = block; used = used } }
    {
        Tail { block, used }
    }

    /// The block's number.
    pub fn block(&self) -> u32
        ensures { result ≡ self.now.block }
    {
        self.block
    }

    /// How many pages are taken, 0 to 256. The next record begins at the page with this number.
    pub fn used(&self) -> u32
        ensures used { result ≡ self.now.used }
        ensures within { result ≤ 256 }
    {
        self.used
    }

    /// Whether a packet of this length, at most 65,542 octets, fits behind the others.
    pub fn fits(&self, length: u32) -> bool
        requires { length ≤ 65542 }
        ensures { result ≡ nat_le (self.now.used + charge_of length) 256 }
    {
        self.used + charge(length) <= PAGES
    }

    /// Programs a record behind the others and returns its first page. The stamp is below 2^48, in
    /// 1/65,536 s, and `buf` has at least 4,352 octets, which may be any afterwards. There is no
    /// barrier: until one, a power loss may leave anything in the record's pages.
    ///
    /// `Failed`: a program failed. The record's pages then hold anything, no other page changed,
    /// and the tail is shut: it counts as full, so no record fits.
    pub fn append<B: Board>(
        &mut self,
        board: &mut B,
        number: u32,
        stamp: u64,
        packet: PacketView<'_>,
        buf: &mut [u8],
    ) -> Result<u32, Failed>
        requires block { IsDataBlock (B.means.device board.old).blocks self.old.block }
        requires stamp { stamp < 2 ^ 48 }
        requires fits { self.old.used + charge_of (length (octets_of packet)) ≤ 256 }
        requires room { 4352 ≤ length buf.old }
        requires clean { TellsFlash B.means board.old
            → IsCleanFrom (B.means.flash board.old) self.old.block self.old.used }

        ensures page { IfOk result (λ page. page ≡ self.old.used) }
        ensures tail { self.new
            ≡ after_append (charge_of (length (octets_of packet.entry))) self.old result }
        ensures flash { OnOk result (TellsFlash B.means board.old → B.means.flash board.new
            ≡ with_record (256 * self.old.block + self.old.used) number stamp
            (octets_of packet.entry) (B.means.flash board.old)) }

        // The record is spelled at its place, and what is behind it is clean.
        ensures spelled { OnOk result (TellsFlash B.means board.old
            → record_at (block_octets (B.means.flash board.new).content self.old.block)
            number self.old.used
            ≡ Some (record { number = number; stamp = stamp; packet = octets_of packet.entry })) }
        ensures clean { TellsFlash B.means board.old
            → IsCleanFrom (B.means.flash board.new) self.new.block self.new.used }
        ensures seen { OnOk result (TellsFlash B.means board.old → B.means.images
            board.new (B.means.moment board.new) (B.means.flash board.new).content) }

        // No page but those of the record is touched, also where a program failed. They were clean.
        ensures others { TellsFlash B.means board.old → SameElsewhere
            (pages_from (256 * self.old.block + self.old.used)
            (charge_of (length (octets_of packet.entry))))
            (B.means.flash board.old) (B.means.flash board.new) }
        ensures touches { Touches B.means (pages_from (256 * self.old.block + self.old.used)
            (charge_of (length (octets_of packet.entry))))
            (charge_of (length (octets_of packet.entry))) 0 0 board.old board.new }
        ensures programs { OnOk result (RoseBy (charge_of (length (octets_of packet.entry)))
            (B.means.counts board.old).programs (B.means.counts board.new).programs) }
        ensures no_fault { OnOk result
            ((B.means.counts board.new).flash_faults ≡ (B.means.counts board.old).flash_faults) }
        ensures cause { OnErr result
            (Rose (B.means.counts board.old).flash_faults (B.means.counts board.new).flash_faults) }
    {
        let pages = write_record(number, stamp, packet, buf);
        let octets = &buf[..256 * pages as usize];
        let first = self.used;
        self.used = PAGES;
        write_pages(board, self.block, first, pages, octets)?;
        self.used = first + pages;
        Ok(first)
    }
}
