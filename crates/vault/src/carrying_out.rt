// The instructions of a request, carried out in memory, and the text of the entry that makes them
// durable: of each that takes effect its change, one behind another.
ghost use Rattle.std.specs.Prelude.{◌≡◌, ◌+◌, ◌*◌, ◌≤◌, ◌<◌, ◌^◌, All, IfOk, OnErr, length, true};
ghost use Rattle.control_defs.specs.Instructions.{IsInstruction};
ghost use Rattle.pst_model.specs.Instructions.{instruct};
ghost use Rattle.request_laws.specs.Changing.{change_by};
ghost use Rattle.request_laws.specs.Counting.{CanBeCarried};
ghost use Rattle.store_directory.specs.Directory.{reserved_by};
ghost use Rattle.store_load.specs.Claims.{may_share};
ghost use Rattle.store_policy.specs.Agreement.{Agrees};
ghost use Rattle.store_policy.specs.Shown.{AreAllTogether};
ghost use Rattle.vault.specs.Following.{Stores};
ghost use Rattle.vault.specs.Memory.{EachStore, IsSoundStore};
ghost use Rattle.vault.specs.Requests.{AreCarriedOut, OfShown, TakesEffect, verdict_of};

use crate::change_for::change_for;
use crate::following::follow;
use crate::last_block::LastBlock;
use arrayvec::ArrayVec;
use control_defs::Instruction;
use std::alloc::Global;
use store_directory::{Directory, write_change};
use store_policy::{Refusal, View, check};
use time_index::Index;

/// What the instructions of a request did.
#[derive(Drop)]
pub(crate) struct Carried {
    /// Of each that was refused its number, from 1, and why.
    pub(crate) refused: ArrayVec<(u8, Refusal), 32>,
    /// How many octets the text of the entry has so far.
    pub(crate) size: u32,
}

// Makes the change of an instruction, if it has one, and writes it at `at`, where 30 octets have
// room. Returns the place behind it.
fn take_effect(
    alloc: Global,
    directory: &mut Directory,
    indexes: &mut Vec<Index>,
    lasts: &mut Vec<LastBlock>,
    item: &Instruction,
    at: u32,
    out: &mut [u8],
) -> u32
    requires lasts { length lasts.old.items ≡ length directory.old.stores }
    requires together { AreAllTogether directory.old.stores indexes.old.items }
    requires lawful { IsInstruction item.now }
    requires room { at + 30 ≤ length out.old }
    requires short { at + 30 < 2 ^ 32 }
    ensures effect { TakesEffect item.now
        (change_by directory.old.directory indexes.old.items item.now)
        (record {
          directory = directory.old.directory;
          indexes = indexes.old.items;
          lasts = lasts.old.items;
        })
        (record {
          directory = directory.new.directory;
          indexes = indexes.new.items;
          lasts = lasts.new.items;
        }) at result out.old out.new }
    ensures end { result ≤ at + 30 }
{
    let Some(change) = change_for(directory, indexes, item) else {
        return at;
    };
    // the number of stores is not used: with it comes that no store is greater than it has been
    let _ = directory.len();
    follow(directory, indexes, lasts, item);
    let _ = directory.apply(alloc, &change);
    write_change(&change, at, out)
}

// Carries out an instruction, or tells why it is refused. Its change is written at `at`, and the
// place behind it is returned.
fn carry_out(
    alloc: Global,
    directory: &mut Directory,
    indexes: &mut Vec<Index>,
    lasts: &mut Vec<LastBlock>,
    blocks: u32,
    item: &Instruction,
    at: u32,
    out: &mut [u8],
) -> Result<u32, Refusal>
    requires lasts { length lasts.old.items ≡ length directory.old.stores }
    requires together { AreAllTogether directory.old.stores indexes.old.items }
    requires least { 16 ≤ blocks }
    requires most { blocks ≤ 512 }
    requires reserved { reserved_by directory.old.stores + 8 ≤ blocks }
    requires lawful { IsInstruction item.now }
    requires room { at + 30 ≤ length out.old }
    requires short { at + 30 < 2 ^ 32 }
    ensures agrees { OfShown directory.old.directory indexes.old.items
        (λ table. Agrees (verdict_of result) (instruct blocks item.now table)) }
    ensures effect { IfOk result (λ end. TakesEffect item.now
        (change_by directory.old.directory indexes.old.items item.now)
        (record {
          directory = directory.old.directory;
          indexes = indexes.old.items;
          lasts = lasts.old.items;
        })
        (record {
          directory = directory.new.directory;
          indexes = indexes.new.items;
          lasts = lasts.new.items;
        }) at end out.old out.new) }
    ensures end { IfOk result (λ end. end ≤ at + 30) }
    ensures same { OnErr result (directory.new ≡ directory.old) }
    ensures indexes { OnErr result (indexes.new.items ≡ indexes.old.items) }
    ensures lasts { OnErr result (lasts.new.items ≡ lasts.old.items) }
    ensures text { OnErr result (out.new ≡ out.old) }
{
    let view = View {
        directory,
        indexes,
        blocks,
    };
    check(&view, item)?;
    Ok(take_effect(alloc, directory, indexes, lasts, item, at, out))
}

/// Carries out the instructions of a request, and writes their changes at the front of `out`, 30
/// octets each at most.
pub(crate) fn carry_out_all(
    alloc: Global,
    directory: &mut Directory,
    indexes: &mut Vec<Index>,
    lasts: &mut Vec<LastBlock>,
    blocks: u32,
    items: &[Instruction],
    out: &mut [u8],
) -> Carried
    requires stores { EachStore (IsSoundStore directory.old.now) directory.old.stores
        indexes.old.items lasts.old.items }
    requires share { may_share 240 blocks directory.old.stores ≡ true }
    requires least { 16 ≤ blocks }
    requires most { blocks ≤ 512 }
    requires carried { CanBeCarried items.now }
    requires room { length out.old ≡ 65536 }
    ensures carried { AreCarriedOut blocks items.now (length items.now)
        (record {
          directory = directory.old.directory;
          indexes = indexes.old.items;
          lasts = lasts.old.items;
        })
        (record {
          directory = directory.new.directory;
          indexes = indexes.new.items;
          lasts = lasts.new.items;
        })
        result.refused.items result.size out.old out.new }
    ensures few { length result.refused.items ≤ length items.now }
    ensures size { result.size ≤ 30 * length items.now }
{
    // the number of stores is not used: with it comes what the directory keeps
    let _ = directory.len();
    let mut refused = ArrayVec::new();
    let mut size = 0;
    for at in 0..items.len() {
        match carry_out(
            alloc, directory, indexes, lasts, blocks, &items[at], size, out,
        ) {
            Ok(end) => size = end,
            Err(refusal) => refused.push((at as u8 + 1, refusal)),
        }
    }
    Carried { refused, size }
}
