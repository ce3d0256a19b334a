// Links, in memory or in a text: the block (2) and the number of its first record (4), one link
// behind another.
ghost use Rattle.std.specs.Prelude.{◌++◌, ◌^◌, MatchOption, None, ◌≡◌, ◌<◌, ◌≤◌, ◌+◌, ◌*◌, Some, length, slice_get};
ghost use Rattle.octet_fields.specs.Fields.{Writes, big_bytes};
ghost use Rattle.store_directory.specs.Checkpoints.{link_list_in};
ghost use Rattle.store_directory.specs.Entries.{link_octets, links_in, links_octets};
ghost use Rattle.store_directory.specs.Directory.{FitsLink};

use octet_fields::{put_u16, put_u32, u16_at, u32_at};
use record_view::Link;
use std::marker::Model;

/// The octets of a link.
pub(crate) const LINK: usize = 6;

/// Links, wherever they lie.
pub(crate) trait LinkList {
    ghost use Rattle.std.specs.Prelude.{List};
    ghost use Rattle.record_view.specs.declared.link.Link.{Link};

    ghost listed: { Self → List Link };

    /// How many links there are.
    fn len(&self) -> usize
        ensures { result ≡ length (listed self.now) };

    /// The link at a place, counted from 0.
    fn get(&self, at: usize) -> Link
        requires { at < length (listed self.now) }
        ensures link { slice_get (listed self.now) at ≡ Some result }
        ensures fits { FitsLink result };
}

/// The link. The numbers of each fit their octets.
pub(crate) fn in_range(link: Link) -> Link
    ensures same { result ≡ link }
    ensures fits { FitsLink result }
{
    link
}

impl LinkList for &[Link] {
    ghost listed = { λ links. links.now };

    fn len(&self) -> usize {
        <[Link]>::len(self)
    }

    fn get(&self, at: usize) -> Link {
        in_range(self[at])
    }
}

/// Links in a text.
#[derive(Drop)]
pub(crate) struct LinkText<'a> {
    octets: &'a [u8],
    count: u16,
}

impl<'a> Model for LinkText<'a> {
    ghost use Rattle.std.specs.Prelude.{◌≤◌, ◌*◌, List, length};
    ghost use Rattle.record_view.specs.declared.link.Link.{Link};
    ghost use Rattle.store_directory.specs.Entries.{links_in};

    ghost Value = { List Link };

    ghost view = { λ links. links_in links.count links.octets.now };

    ghost invariant = { λ links. 6 * links.count ≤ length links.octets.now };
}

impl<'a> LinkText<'a> {
    /// So many links at the front of the octets.
    pub(crate) fn new(octets: &'a [u8], count: u16) -> LinkText<'a>
        requires { 6 * count ≤ length octets.now }
        ensures { result ≡ links_in count octets.now }
    {
        LinkText { octets, count }
    }
}

impl<'a> LinkList for LinkText<'a> {
    ghost listed = { λ links. links };

    fn len(&self) -> usize {
        self.count as usize
    }

    fn get(&self, at: usize) -> Link {
        Link {
            block: u16_at(self.octets, LINK * at),
            first: u32_at(self.octets, LINK * at + 2),
        }
    }
}

fn put_link(link: &Link, out: &mut [u8], at: usize)
    requires { at + 6 ≤ length out.old }
    ensures { Writes out.old out.new at (link_octets link.now) }
{
    put_u16(out, at, link.block);
    put_u32(out, at + 2, link.first);
}

/// Writes links at `at`, and answers the place behind them. The rest of `out` stays.
pub(crate) fn put_links(links: &[Link], out: &mut [u8], at: usize) -> usize
    requires { at + 6 * length links.now ≤ length out.old }
    ensures place { result ≡ at + 6 * length links.now }
    ensures written { Writes out.old out.new at (links_octets links.now) }
{
    let mut place = at;
    for link in links {
        put_link(link, out, place);
        place += LINK;
    }
    place
}

/// The links whose number stands at the front, and what is behind them. None where the text ends
/// before.
pub(crate) fn links_from<'a>(text: &'a [u8]) -> Option<(LinkText<'a>, &'a [u8])>
    ensures { MatchOption result (link_list_in text.now ≡ None)
        (λ read. link_list_in text.now ≡ Some (read.0, read.1.now)) }
{
    if text.len() < 2 {
        return None;
    }
    let count = u16_at(text, 0);
    let octets = &text[2..];
    let long = LINK * count as usize;
    if octets.len() < long {
        return None;
    }
    Some((LinkText::new(octets, count), &octets[long..]))
}

/// Writes the number of links and these, and answers the place behind them. The rest of `out`
/// stays.
pub(crate) fn put_link_list(links: &[Link], out: &mut [u8], at: usize) -> usize
    requires few { length links.now < 2 ^ 16 }
    requires room { at + 2 + 6 * length links.now ≤ length out.old }
    ensures place { result ≡ at + 2 + 6 * length links.now }
    ensures written { Writes out.old out.new at
        (big_bytes 2 (length links.now) ++ links_octets links.now) }
{
    put_u16(out, at, links.len() as u16);
    put_links(links, out, at + 2)
}
