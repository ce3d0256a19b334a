// The stores of a listing, with the packets that are read for it.
ghost use Rattle.std.specs.Prelude.{◌≡◌, ◌≤◌, ◌<◌, true, length, take, IfErr, IfOk, IfSome, OnOk, slice_get};
ghost use Rattle.board.specs.Reads.{ReadsOnly};
ghost use Rattle.listing.specs.Faults.{IsAfter, IsCauseOf, IsNoMismatch, TellsDifference};
ghost use Rattle.listing.specs.Lists.{Breaks, Lists, ToldTable};
ghost use Rattle.listing.specs.Parts.{all_pages, lines_of, one_at, packet_at, packets_at, pages_at, store_at, stores_to};
ghost use Rattle.pst_model.specs.Table.{Table};
ghost use Rattle.vault.specs.Fetching.{IsPosition, charge_at};

use crate::fault::{ListingFault, fault_of};
use crate::lines::write_packet;
use crate::sending::{index_at, send_line, send_title};
use board::Board;
use vault::{Vault, fetches_keep_the_table};

// Reads a packet, writes its line into the front of the buffer, and answers the line's octets.
fn write_fetched<B: Board>(
    vault: &mut Vault,
    board: &mut B,
    buffer: &mut [u8],
    at: u32,
    position: u32,
) -> Result<usize, ListingFault>
    requires is_open { vault.old.is_open ≡ true }
    requires blocks { vault.old.blocks ≡ (B.means.device board.old).blocks }
    requires within { IsPosition vault.old at position }
    requires room { 8213 ≤ length buffer.old }

    ensures line { IfOk result (λ size. (table : Table) → ToldTable B.means vault.old board.old table
        → take size buffer.new ≡ packet_at at position table) }
    ensures size { IfOk result (λ size. size ≤ length buffer.new) }
    ensures same { length buffer.new ≡ length buffer.old }
    ensures after { IsAfter vault.old vault.new result }
    ensures reads { ReadsOnly B.means (charge_at vault.old at position) board.old board.new }
    ensures no_fault { OnOk result
        ((B.means.counts board.new).flash_faults ≡ (B.means.counts board.old).flash_faults) }
    ensures cause { IfErr result (λ fault. IsCauseOf fault (B.means.counts board.old)
        (B.means.counts board.new)) }
    ensures no_mismatch { IfErr result (λ fault. (table : Table)
        → ToldTable B.means vault.old board.old table → IsNoMismatch fault) }
    ensures difference { IfErr result (TellsDifference vault.old) }
{
    match vault.fetch(board, at, position) {
        Ok(record) => Ok(write_packet(record.stamp, record.packet.bytes(), buffer)),
        Err(fault) => Err(fault_of(fault)),
    }
}

// Sends the line of a packet.
fn send_packet<B: Board>(
    vault: &mut Vault,
    board: &mut B,
    buffer: &mut [u8],
    at: u32,
    position: u32,
) -> Result<(), ListingFault>
    requires is_open { vault.old.is_open ≡ true }
    requires blocks { vault.old.blocks ≡ (B.means.device board.old).blocks }
    requires within { IsPosition vault.old at position }
    requires room { 8213 ≤ length buffer.old }

    ensures ok { OnOk result (Lists B.means (ToldTable B.means vault.old board.old)
        (packet_at at position) (charge_at vault.old at position) 1 board.old board.new) }
    ensures err { IfErr result (λ fault. Breaks B.means (ToldTable B.means vault.old board.old)
        (packet_at at position) (charge_at vault.old at position) 1 fault board.old board.new) }
    ensures after { IsAfter vault.old vault.new result }
    ensures difference { IfErr result (TellsDifference vault.old) }
    ensures same { length buffer.new ≡ length buffer.old }
{
    let size = write_fetched(vault, board, buffer, at, position)?;
    match send_line(board, buffer, size) {
        Ok(()) => Ok(()),
        Err(_) => Err(ListingFault::Link),
    }
}

// Sends the lines of the first packets of the store at a place.
fn send_packets<B: Board>(
    vault: &mut Vault,
    board: &mut B,
    buffer: &mut [u8],
    at: u32,
    count: u32,
) -> Result<(), ListingFault>
    requires is_open { vault.old.is_open ≡ true }
    requires blocks { vault.old.blocks ≡ (B.means.device board.old).blocks }
    requires within { IfSome (slice_get vault.old.indexes at) (λ index. count ≤ length index.entries) }
    requires at { at < length vault.old.indexes }
    requires room { 8213 ≤ length buffer.old }

    ensures ok { OnOk result (Lists B.means (ToldTable B.means vault.old board.old)
        (packets_at at count) (pages_at at count vault.old) count board.old board.new) }
    ensures err { IfErr result (λ fault. Breaks B.means (ToldTable B.means vault.old board.old)
        (packets_at at count) (pages_at at count vault.old) count fault board.old board.new) }
    ensures after { IsAfter vault.old vault.new result }
    ensures difference { IfErr result (TellsDifference vault.old) }
    ensures same { length buffer.new ≡ length buffer.old }
{
    fetches_keep_the_table();
    for position in 0..count {
        match send_packet(vault, board, buffer, at, position) {
            Ok(()) => {}
            Err(fault) => return Err(fault),
        }
    }
    Ok(())
}

// Sends the lines of the store at a place, with those of its patterns and packets.
fn send_store<B: Board>(
    vault: &mut Vault,
    board: &mut B,
    buffer: &mut [u8],
    at: u32,
) -> Result<(), ListingFault>
    requires is_open { vault.old.is_open ≡ true }
    requires blocks { vault.old.blocks ≡ (B.means.device board.old).blocks }
    requires within { at < length vault.old.directory.stores }
    requires room { 8213 ≤ length buffer.old }

    ensures ok { OnOk result (Lists B.means (ToldTable B.means vault.old board.old) (store_at at)
        (all_pages (one_at vault.old.indexes at))
        (lines_of (one_at vault.old.directory.stores at) (one_at vault.old.indexes at))
        board.old board.new) }
    ensures err { IfErr result (λ fault. Breaks B.means (ToldTable B.means vault.old board.old)
        (store_at at) (all_pages (one_at vault.old.indexes at))
        (lines_of (one_at vault.old.directory.stores at) (one_at vault.old.indexes at))
        fault board.old board.new) }
    ensures after { IsAfter vault.old vault.new result }
    ensures difference { IfErr result (TellsDifference vault.old) }
    ensures same { length buffer.new ≡ length buffer.old }
{
    match send_title(vault, board, buffer, at) {
        Ok(()) => {
            let count = index_at(vault.view().indexes, at).len();
            send_packets(vault, board, buffer, at, count)
        }
        Err(_) => Err(ListingFault::Link),
    }
}

/// Sends the lines of the first stores, with those of their patterns and packets.
pub fn send_stores<B: Board>(
    vault: &mut Vault,
    board: &mut B,
    buffer: &mut [u8],
    count: u32,
) -> Result<(), ListingFault>
    requires is_open { vault.old.is_open ≡ true }
    requires blocks { vault.old.blocks ≡ (B.means.device board.old).blocks }
    requires within { count ≤ length vault.old.directory.stores }
    requires room { 8213 ≤ length buffer.old }

    ensures ok { OnOk result (Lists B.means (ToldTable B.means vault.old board.old) (stores_to count)
        (all_pages (take count vault.old.indexes))
        (lines_of (take count vault.old.directory.stores) (take count vault.old.indexes))
        board.old board.new) }
    ensures err { IfErr result (λ fault. Breaks B.means (ToldTable B.means vault.old board.old)
        (stores_to count) (all_pages (take count vault.old.indexes))
        (lines_of (take count vault.old.directory.stores) (take count vault.old.indexes))
        fault board.old board.new) }
    ensures after { IsAfter vault.old vault.new result }
    ensures difference { IfErr result (TellsDifference vault.old) }
    ensures same { length buffer.new ≡ length buffer.old }
{
    fetches_keep_the_table();
    for at in 0..count {
        match send_store(vault, board, buffer, at) {
            Ok(()) => {}
            Err(fault) => return Err(fault),
        }
    }
    Ok(())
}
