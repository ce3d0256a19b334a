// Whether two directories are the same.
ghost use Rattle.std.specs.Prelude.{◌≡◌, ◌<◌, length, slice_get, true};
ghost use Rattle.std.specs.Bool.{Decides};
ghost use Rattle.store_directory.specs.Directory.{Listed};
ghost use Rattle.store_directory.specs.Same.{same_directory};

use crate::directory::Directory;
use crate::row::Row;
use control_defs::Pattern;
use record_view::Link;

fn same_row(row: &Row, other: &Row) -> bool
    ensures { Decides result (row.now ≡ other.now) }
{
    row == other
}

fn same_patterns(patterns: &[Pattern], others: &[Pattern]) -> bool
    ensures { Decides result (patterns.now ≡ others.now) }
{
    patterns == others
}

fn same_links(links: &[Link], others: &[Link]) -> bool
    ensures { Decides result (links.now ≡ others.now) }
{
    links == others
}

// Whether the stores at one place of two directories are the same.
fn same_store(one: &Directory, other: &Directory, at: u32) -> bool
    requires within { at < length one.now.stores }
    requires other { at < length other.now.stores }
    ensures { Decides result (slice_get one.now.stores at ≡ slice_get other.now.stores at) }
{
    same_row(one.row(at), other.row(at))
        && same_patterns(one.patterns(at).list(), other.patterns(at).list())
        && same_links(one.links(at), other.links(at))
}

fn same_stores(one: &Directory, other: &Directory) -> bool
    ensures { Decides result (one.now.stores ≡ other.now.stores) }
{
    if one.len() != other.len() {
        return false;
    }
    for at in 0..one.len() {
        if !same_store(one, other, at) {
            return false;
        }
    }
    true
}

fn are_same(one: &Directory, other: &Directory) -> bool
    ensures { Decides result (one.now.directory ≡ other.now.directory) }
{
    one.now() == other.now()
        && one.reports() == other.reports()
        && same_patterns(one.forward().list(), other.forward().list())
        && same_stores(one, other)
}

impl Directory {
    /// Whether the two are the same directory. The room that their stores have is of no account.
    pub fn same(&self, other: &Directory) -> bool
        ensures { result ≡ same_directory self.now.directory other.now.directory }
    {
        are_same(self, other)
    }
}
