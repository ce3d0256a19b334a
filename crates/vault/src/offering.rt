// An arriving packet is offered to one store after another.
//
// The record of a packet that a store takes is programmed at once, behind the store's last one or into
// a new block. It counts once the entry with the changes of all stores is durable: until then the
// directory that the flash holds names none of these pages.
ghost use Rattle.std.specs.Prelude.{◌≡◌, ◌<◌, ◌≤◌, ◌+◌, ◌∷◌, [], ℕ, Some, IsSome, false, true, length, slice_get, OnOk, OnErr};
ghost use Rattle.board.specs.Counts.{Rose};
ghost use Rattle.space_packet.specs.View.{octets_of};
ghost use Rattle.store_directory.specs.Changes.{Links, apply};
ghost use Rattle.store_directory.specs.Directory.{Listed};
ghost use Rattle.store_put.specs.Recording.{stored_by};
ghost use Rattle.time_index.specs.TimeIndex.{TimeIndex};
ghost use Rattle.vault.specs.Memory.{InMemory};
ghost use Rattle.vault.specs.Offering.{CanBeCounted, HasStoreAt, IsAt, IsCounted, IsLastBlock, IsLinked, IsPlanAt, TakesAt, link_behind};
ghost use Rattle.vault.specs.Storing.{HasPut, IsPutting, OffersQuietly, is_full};
ghost use Rattle.vault.specs.declared.last_block.LastBlock.{LastBlock as Last};

use crate::last_block::LastBlock;
use crate::loading::RULE;
use crate::vault::Vault;
use board::{Board, Failed};
use record_view::Link;
use space_packet::charge;
use store_directory::Change;
use store_put::{
    Arrival, EntryText, Plan, append_record, begin_record, count_record, make_change, plan_of,
    tell_refusal,
};
use time_index::{Entry, Index};

// The block of the last one of some links.
fn last_block(links: &[Link]) -> u16
    requires { 1 ≤ length links.now }
    ensures { IsLastBlock links.now result }
{
    links[links.len() - 1].block
}

impl Vault {
    // What is known of the last block of the store at a place.
    fn last_at(&self, at: u32) -> LastBlock
        requires { at < length self.now.lasts }
        ensures { slice_get self.now.lasts at ≡ Some result }
    {
        let lasts: &[LastBlock] = &self.lasts;
        lasts[at as usize]
    }

    // What the store at a place does with an arriving packet.
    fn plan_at(&self, at: u32, arrival: &Arrival<'_>) -> Plan
        requires { HasStoreAt self.now at }
        ensures { IsPlanAt self.now (stored_by arrival.now) at result }
    {
        let indexes: &[Index] = &self.indexes;
        plan_of(
            self.directory.row(at),
            self.directory.patterns(at),
            &indexes[at as usize],
            &arrival.packet,
        )
    }

    // Whether the store at a place has no last block with room for each packet.
    fn is_full(&self, at: u32) -> bool
        requires { HasStoreAt self.now at }
        ensures { (s : Listed) (index : TimeIndex) (last : Last) → IsAt self.now at s index last
            → result ≡ is_full s.links last }
    {
        self.directory.links(at).is_empty() || self.last_at(at).used >= RULE.least
    }

    // Links a block behind those of the store at a place.
    fn link_block(&mut self, at: u32, block: u16, text: &mut EntryText)
        requires closed { self.old.is_open ≡ false }
        requires within { at < length self.old.directory.stores }
        requires fits { (s : Listed) → slice_get self.old.directory.stores at ≡ Some s
            → IsSome (apply self.old.directory.directory
            (Links s.identifier (link_behind s block ∷ []))) }
        requires room { length text.old + 11 ≤ 1321 }
        ensures linked { (s : Listed) → slice_get self.old.directory.stores at ≡ Some s
            → IsLinked self.old self.new block text.old text.new s }
        ensures closed { self.new.is_open ≡ false }
        ensures blocks { self.new.blocks ≡ self.old.blocks }
        ensures held { self.new.held ≡ self.old.held }
    {
        let row = self.directory.row(at);
        let store = row.identifier;
        let link = Link {
            block,
            first: row.first.wrapping_add(row.count),
        };
        make_change(
            self.alloc,
            &mut self.directory,
            &Change::Links {
                store,
                links: &[link],
            },
            text,
        );
    }

    // Counts the record of an entry as the last one of the store at a place, behind so many packets
    // that leave the front. It uses so many pages of its last block then.
    fn count_in(&mut self, at: u32, leaving: u32, entry: Entry, used: u32, text: &mut EntryText)
        requires closed { self.old.is_open ≡ false }
        requires counted { CanBeCounted self.old at leaving entry }
        requires room { length text.old + 30 ≤ 1321 }
        ensures counted { (s : Listed) (index : TimeIndex) (last : Last)
            → IsAt self.old at s index last
            → IsCounted self.old self.new at leaving entry used text.old text.new s index }
        ensures closed { self.new.is_open ≡ false }
        ensures blocks { self.new.blocks ≡ self.old.blocks }
        ensures held { self.new.held ≡ self.old.held }
    {
        let indexes: &mut [Index] = &mut self.indexes;
        let index = &mut indexes[at as usize];
        count_record(
            self.alloc,
            &mut self.directory,
            index,
            at,
            leaving,
            entry,
            text,
        );
        let lasts: &mut [LastBlock] = &mut self.lasts;
        lasts[at as usize] = LastBlock { used, stale: false };
    }

    // The store at a place takes a packet into its last block, which has room for each packet.
    fn take_into_last<B: Board>(
        &mut self,
        board: &mut B,
        at: u32,
        leaving: u32,
        arrival: &Arrival<'_>,
        text: &mut EntryText,
    ) -> Result<(), Failed>
        requires within { at < length self.old.directory.stores }
        requires putting { IsPutting B.means board.old self.old (stored_by arrival.now) at text.old }
        requires takes { TakesAt self.old (stored_by arrival.now) at leaving }
        requires room { (s : Listed) (index : TimeIndex) (last : Last) → IsAt self.old at s index last
            → is_full s.links last ≡ false }

        ensures goes { OnOk result ((start : B) (first : InMemory)
            → HasPut B.means start board.old first self.old (stored_by arrival.now) at text.old
            → HasPut B.means start board.new first self.new (stored_by arrival.now) (at + 1)
            text.new) }
        ensures fails { OnErr result ((start : B) (first : InMemory)
            → HasPut B.means start board.old first self.old (stored_by arrival.now) at text.old
            → OffersQuietly B.means start board.new first (octets_of arrival.now.packet) (at + 1)) }
        ensures closed { self.new.is_open ≡ false }
        ensures blocks { self.new.blocks ≡ self.old.blocks }
        ensures held { self.new.held ≡ self.old.held }
        ensures no_fault { OnOk result
            ((B.means.counts board.new).flash_faults ≡ (B.means.counts board.old).flash_faults) }
        ensures cause { OnErr result (Rose (B.means.counts board.old).flash_faults
            (B.means.counts board.new).flash_faults) }
    {
        let used = self.last_at(at).used;
        let block = last_block(self.directory.links(at));
        let row = self.directory.row(at);
        let entry = append_record(board, block, used, row, arrival, &mut self.buffer)?;
        let need = charge(arrival.packet.bytes().len() as u32);
        self.count_in(at, leaving, entry, used + need, text);
        Ok(())
    }

    // The store at a place takes a packet into a new block, since it has no last one with room.
    fn take_into_new<B: Board>(
        &mut self,
        board: &mut B,
        at: u32,
        leaving: u32,
        arrival: &Arrival<'_>,
        text: &mut EntryText,
    ) -> Result<(), Failed>
        requires within { at < length self.old.directory.stores }
        requires putting { IsPutting B.means board.old self.old (stored_by arrival.now) at text.old }
        requires takes { TakesAt self.old (stored_by arrival.now) at leaving }
        requires full { (s : Listed) (index : TimeIndex) (last : Last) → IsAt self.old at s index last
            → is_full s.links last ≡ true }

        ensures goes { OnOk result ((start : B) (first : InMemory)
            → HasPut B.means start board.old first self.old (stored_by arrival.now) at text.old
            → HasPut B.means start board.new first self.new (stored_by arrival.now) (at + 1)
            text.new) }
        ensures fails { OnErr result ((start : B) (first : InMemory)
            → HasPut B.means start board.old first self.old (stored_by arrival.now) at text.old
            → OffersQuietly B.means start board.new first (octets_of arrival.now.packet) (at + 1)) }
        ensures closed { self.new.is_open ≡ false }
        ensures blocks { self.new.blocks ≡ self.old.blocks }
        ensures held { self.new.held ≡ self.old.held }
        ensures no_fault { OnOk result
            ((B.means.counts board.new).flash_faults ≡ (B.means.counts board.old).flash_faults) }
        ensures cause { OnErr result (Rose (B.means.counts board.old).flash_faults
            (B.means.counts board.new).flash_faults) }
    {
        let row = self.directory.row(at);
        let entry = begin_record(board, &mut self.pool, row, arrival, &mut self.buffer)?;
        // the wear is not used: with it comes what the pool keeps
        let _ = self.pool.wear();
        self.link_block(at, entry.block, text);
        let need = charge(arrival.packet.bytes().len() as u32);
        self.count_in(at, leaving, entry, need, text);
        Ok(())
    }

    /// Offers an arriving packet to the store at a place. If it takes the packet, the record is
    /// programmed; the changes of the store are made in memory, and written behind those of a text.
    ///
    /// `Failed`: a call of the board failed. The flash then still holds the table from before.
    pub(crate) fn offer_to<B: Board>(
        &mut self,
        board: &mut B,
        at: u32,
        arrival: &Arrival<'_>,
        text: &mut EntryText,
    ) -> Result<(), Failed>
        requires within { at < length self.old.directory.stores }
        requires putting { IsPutting B.means board.old self.old (stored_by arrival.now) at text.old }

        ensures goes { OnOk result ((start : B) (first : InMemory)
            → HasPut B.means start board.old first self.old (stored_by arrival.now) at text.old
            → HasPut B.means start board.new first self.new (stored_by arrival.now) (at + 1)
            text.new) }
        ensures fails { OnErr result ((start : B) (first : InMemory)
            → HasPut B.means start board.old first self.old (stored_by arrival.now) at text.old
            → OffersQuietly B.means start board.new first (octets_of arrival.now.packet) (at + 1)) }
        ensures closed { self.new.is_open ≡ false }
        ensures blocks { self.new.blocks ≡ self.old.blocks }
        ensures held { self.new.held ≡ self.old.held }
        ensures no_fault { OnOk result
            ((B.means.counts board.new).flash_faults ≡ (B.means.counts board.old).flash_faults) }
        ensures cause { OnErr result (Rose (B.means.counts board.old).flash_faults
            (B.means.counts board.new).flash_faults) }
    {
        match self.plan_at(at, arrival) {
            Plan::Stays => Ok(()),
            Plan::Refuses(_) => {
                tell_refusal(self.alloc, &mut self.directory, at, text);
                Ok(())
            }
            Plan::Takes(leaving) => {
                if self.is_full(at) {
                    self.take_into_new(board, at, leaving, arrival, text)
                } else {
                    self.take_into_last(board, at, leaving, arrival, text)
                }
            }
        }
    }
}
