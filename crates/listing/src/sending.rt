// The lines of a listing that need no packet, each sent by a call of its own.
ghost use Rattle.std.specs.Prelude.{◌≡◌, ◌≤◌, ◌<◌, ◌+◌, ◌∷◌, ◌++◌, ⊤, true, Some, length, slice_get, take, sum_by, OnErr, OnOk};
ghost use Rattle.std.specs.List.{flat_map};
ghost use Rattle.listing.specs.Lists.{Breaks, Lists, ToldTable};
ghost use Rattle.listing.specs.Parts.{one_at, row_at, title_at, title_lines};
ghost use Rattle.listing.specs.declared.fault.ListingFault.TheVariants.{Link};
ghost use Rattle.pst_model.specs.Listing.{forward_line, pattern_words, table_line, words_line};

use crate::lines::{write_clock, write_pattern, write_store};
use board::{Board, Failed};
use control_defs::Pattern;
use time_index::Index;
use vault::Vault;

/// Sends the line of this many octets that the buffer holds in front.
pub fn send_line<B: Board>(board: &mut B, buffer: &[u8], size: usize) -> Result<(), Failed>
    requires { size ≤ length buffer.now }
    ensures ok { OnOk result (Lists B.means (λ _. ⊤) (λ _. take size buffer.now) 0 1
        board.old board.new) }
    ensures err { OnErr result (Breaks B.means (λ _. ⊤) (λ _. take size buffer.now) 0 1 Link
        board.old board.new) }
{
    board.send(&buffer[..size])
}

// Sends the line of the clock and of the count of reports.
fn send_clock<B: Board>(vault: &Vault, board: &mut B, buffer: &mut [u8]) -> Result<(), Failed>
    requires is_open { vault.now.is_open ≡ true }
    requires room { 512 ≤ length buffer.old }
    ensures ok { OnOk result (Lists B.means (ToldTable B.means vault.now board.old) table_line 0 1
        board.old board.new) }
    ensures err { OnErr result (Breaks B.means (ToldTable B.means vault.now board.old) table_line
        0 1 Link board.old board.new) }
    ensures same { length buffer.new ≡ length buffer.old }
{
    let directory = vault.view().directory;
    let size = write_clock(directory.now(), directory.reports(), buffer);
    send_line(board, buffer, size)
}

// Sends the line of a pattern behind a name of at most 20 octets.
fn send_pattern<B: Board>(
    board: &mut B,
    buffer: &mut [u8],
    name: &str,
    pattern: Pattern,
) -> Result<(), Failed>
    requires name { length name.now ≤ 20 }
    requires room { 512 ≤ length buffer.old }
    ensures ok { OnOk result (Lists B.means (λ _. ⊤)
        (λ _. words_line (name.now ∷ pattern_words pattern)) 0 1 board.old board.new) }
    ensures err { OnErr result (Breaks B.means (λ _. ⊤)
        (λ _. words_line (name.now ∷ pattern_words pattern)) 0 1 Link board.old board.new) }
    ensures same { length buffer.new ≡ length buffer.old }
{
    let size = write_pattern(name, pattern, buffer);
    send_line(board, buffer, size)
}

// Sends the lines of patterns, each behind a name of at most 20 octets.
fn send_patterns<B: Board>(
    board: &mut B,
    buffer: &mut [u8],
    name: &str,
    patterns: &[Pattern],
) -> Result<(), Failed>
    requires name { length name.now ≤ 20 }
    requires room { 512 ≤ length buffer.old }
    ensures ok { OnOk result (Lists B.means (λ _. ⊤)
        (λ _. flat_map (λ pattern. words_line (name.now ∷ pattern_words pattern)) patterns.now)
        0 (length patterns.now) board.old board.new) }
    ensures err { OnErr result (Breaks B.means (λ _. ⊤)
        (λ _. flat_map (λ pattern. words_line (name.now ∷ pattern_words pattern)) patterns.now)
        0 (length patterns.now) Link board.old board.new) }
    ensures same { length buffer.new ≡ length buffer.old }
{
    for pattern in patterns {
        send_pattern(board, buffer, name, *pattern)?;
    }
    Ok(())
}

/// Sends what stands in front of the stores: the line of the clock, and those of the forward
/// patterns.
pub fn send_head<B: Board>(vault: &Vault, board: &mut B, buffer: &mut [u8]) -> Result<(), Failed>
    requires is_open { vault.now.is_open ≡ true }
    requires room { 512 ≤ length buffer.old }
    ensures ok { OnOk result (Lists B.means (ToldTable B.means vault.now board.old)
        (λ table. table_line table ++ flat_map forward_line table.forward)
        0 (1 + length vault.now.directory.forward) board.old board.new) }
    ensures err { OnErr result (Breaks B.means (ToldTable B.means vault.now board.old)
        (λ table. table_line table ++ flat_map forward_line table.forward)
        0 (1 + length vault.now.directory.forward) Link board.old board.new) }
    ensures same { length buffer.new ≡ length buffer.old }
{
    send_clock(vault, board, buffer)?;
    let patterns = vault.view().directory.forward().list();
    send_patterns(board, buffer, "forward", patterns)
}

/// The index of the store at a place.
pub fn index_at(indexes: &[Index], at: u32) -> &Index
    requires { at < length indexes.now }
    ensures { slice_get indexes.now at ≡ Some result.now }
{
    &indexes[at as usize]
}

// Sends the line of the store at a place.
fn send_row<B: Board>(
    vault: &Vault,
    board: &mut B,
    buffer: &mut [u8],
    at: u32,
) -> Result<(), Failed>
    requires is_open { vault.now.is_open ≡ true }
    requires within { at < length vault.now.directory.stores }
    requires room { 512 ≤ length buffer.old }
    ensures ok { OnOk result (Lists B.means (ToldTable B.means vault.now board.old) (row_at at) 0 1
        board.old board.new) }
    ensures err { OnErr result (Breaks B.means (ToldTable B.means vault.now board.old) (row_at at)
        0 1 Link board.old board.new) }
    ensures same { length buffer.new ≡ length buffer.old }
{
    let view = vault.view();
    let row = view.directory.row(at);
    let index = index_at(view.indexes, at);
    let size = write_store(row, index, buffer);
    send_line(board, buffer, size)
}

/// Sends the line of the store at a place, and those of its patterns.
pub fn send_title<B: Board>(
    vault: &Vault,
    board: &mut B,
    buffer: &mut [u8],
    at: u32,
) -> Result<(), Failed>
    requires is_open { vault.now.is_open ≡ true }
    requires within { at < length vault.now.directory.stores }
    requires room { 512 ≤ length buffer.old }
    ensures ok { OnOk result (Lists B.means (ToldTable B.means vault.now board.old) (title_at at)
        0 (sum_by title_lines (one_at vault.now.directory.stores at)) board.old board.new) }
    ensures err { OnErr result (Breaks B.means (ToldTable B.means vault.now board.old) (title_at at)
        0 (sum_by title_lines (one_at vault.now.directory.stores at)) Link board.old board.new) }
    ensures same { length buffer.new ≡ length buffer.old }
{
    send_row(vault, board, buffer, at)?;
    let patterns = vault.view().directory.patterns(at).list();
    send_patterns(board, buffer, "pattern", patterns)
}
