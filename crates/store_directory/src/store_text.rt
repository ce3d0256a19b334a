// Stores in the text of a checkpoint: the row (29), the patterns behind their number (1), and the
// links behind theirs (2).
ghost use Rattle.std.specs.Prelude.{◌≡◌, ◌<◌, ◌≤◌, ◌+◌, ◌^◌, ◌∷◌, [], IfSome, MatchOption, None, Some, is_some, length, true};
ghost use Rattle.octet_fields.specs.Fields.{Writes};
ghost use Rattle.store_directory.specs.Checkpoints.{listed_in, listed_octets, stores_in};
ghost use Rattle.store_directory.specs.Rows.{FitsRow};
ghost use Rattle.store_directory.specs.Spelled.{text_of};
ghost use Rattle.store_directory.specs.Views.{listed_as, stores_read};

use crate::link_text::{LinkText, links_from, put_link_list};
use crate::pattern_text::{PatternText, patterns_from, put_patterns};
use crate::row::Row;
use crate::row_text::{ROW, put_row, row_at};
use control_defs::Pattern;
use record_view::Link;
use std::marker::Model;

/// A store that a text spells.
#[derive(Drop)]
pub(crate) struct StoreText<'a> {
    pub(crate) row: Row,
    pub(crate) patterns: PatternText<'a>,
    pub(crate) links: LinkText<'a>,
}

/// The store at the front of a text, and what is behind it. None where it is not spelled.
pub(crate) fn store_from<'a>(text: &'a [u8]) -> Option<(StoreText<'a>, &'a [u8])>
    ensures store { MatchOption result (listed_in text.now ≡ None)
        (λ read. listed_in text.now ≡ Some (text_of read.0, read.1.now)) }
    ensures fits { IfSome result (λ read. FitsRow read.0.row) }
{
    let row = row_at(text)?;
    let (patterns, rest) = patterns_from(&text[ROW..])?;
    let (links, rest) = links_from(rest)?;
    Some((
        StoreText {
            row,
            patterns,
            links,
        },
        rest,
    ))
}

/// Stores that a text spells, which are taken from the front one by one.
#[derive(Drop)]
pub(crate) struct StoresText<'a> {
    octets: &'a [u8],
    count: u8,
}

impl<'a> Model for StoresText<'a> {
    ghost use Rattle.std.specs.Prelude.{◌≡◌, List, is_some, true};
    ghost use Rattle.store_directory.specs.Checkpoints.{stores_in};
    ghost use Rattle.store_directory.specs.Directory.{Listed};
    ghost use Rattle.store_directory.specs.Views.{stores_read};

    ghost Value = { List Listed };

    ghost view = { λ stores. stores_read stores.count stores.octets.now };

    ghost invariant = { λ stores. is_some (stores_in stores.count stores.octets.now) ≡ true };
}

impl<'a> StoresText<'a> {
    /// The next store. None where none is left.
    pub(crate) fn next_store(&mut self) -> Option<StoreText<'a>>
        ensures next { MatchOption result ((self.old ≡ []) × (self.new ≡ []))
            (λ store. self.old ≡ text_of store ∷ self.new) }
        ensures fits { IfSome result (λ store. FitsRow store.row) }
    {
        if self.count == 0 {
            return None;
        }
        let (store, rest) = store_from(self.octets)?;
        self.octets = rest;
        self.count -= 1;
        Some(store)
    }
}

/// So many stores from the front of a text, and what is behind them. None where one of them is not
/// spelled.
pub(crate) fn stores_from<'a>(text: &'a [u8], count: u8) -> Option<(StoresText<'a>, &'a [u8])>
    ensures { MatchOption result (stores_in count text.now ≡ None)
        (λ read. stores_in count text.now ≡ Some (read.0, read.1.now)) }
{
    let rest = behind_stores(text, count)?;
    Some((
        StoresText {
            octets: text,
            count,
        },
        rest,
    ))
}

// What is behind so many stores. None where one of them is not spelled.
fn behind_stores<'a>(text: &'a [u8], count: u8) -> Option<&'a [u8]>
    ensures { MatchOption result (stores_in count text.now ≡ None)
        (λ rest. stores_in count text.now ≡ Some (stores_read count text.now, rest.now)) }
{
    let mut rest = text;
    for _number in 0..count {
        (_, rest) = store_from(rest)?;
    }
    Some(rest)
}

/// Writes a store, and answers the place behind it. The rest of `out` stays.
pub(crate) fn put_store(
    row: &Row,
    patterns: &[Pattern],
    links: &[Link],
    out: &mut [u8],
    at: usize,
) -> usize
    requires patterns { length patterns.now ≤ 255 }
    requires links { length links.now < 2 ^ 16 }
    requires room { let store = listed_as row.now patterns.now links.now
        in at + length (listed_octets store) ≤ length out.old }
    ensures place { let store = listed_as row.now patterns.now links.now
        in result ≡ at + length (listed_octets store) }
    ensures written { let store = listed_as row.now patterns.now links.now
        in Writes out.old out.new at (listed_octets store) }
{
    let place = put_row(row, out, at);
    let place = put_patterns(patterns, out, place);
    put_link_list(links, out, place)
}
