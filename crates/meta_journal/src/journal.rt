// A journal in memory: which root counts, and where its next entry goes.
ghost use Rattle.std.specs.Prelude.{◌≡◌, ◌≤◌};
ghost use Rattle.root_vote.specs.Roots.{LeadsTo, choice_of_votes};

use root_vote::{Root, Votes};
use std::marker::Model;

/// The journal of a device. It keeps the root that counts, the votes of the root pages as they were
/// read or written, and its room.
#[derive(Drop)]
pub struct Journal {
    pub(crate) root: Root,
    pub(crate) votes: Votes,
    pub(crate) room: u32,
}

impl Model for Journal {
    ghost use Rattle.std.specs.Prelude.{◌≤◌};
    ghost use Rattle.root_vote.specs.Roots.{LeadsTo, choice_of_votes};
    ghost use Rattle.meta_journal.specs.Standing.{Kept};

    ghost Value = { Kept };

    ghost view = { λ j. record { root = j.root; votes = j.votes.votes; room = j.room } };

    ghost invariant = { λ j. LeadsTo j.root (choice_of_votes j.votes.votes) × (j.room ≤ 512) };
}

impl Journal {
    /// The journal of these votes, as they were read. `root` is the one that they agree on, or the
    /// first of their split. No page is known to be clean, so its room is 0.
    pub fn at(root: Root, votes: Votes) -> Journal
        requires { LeadsTo root (choice_of_votes votes.votes) }
        ensures { result ≡ record { root = root; votes = votes.votes; room = 0 } }
    {
        Journal {
            root,
            votes,
            room: 0,
        }
    }

    /// How many pages at the end of the half that counts are known to be clean, at most 512.
    pub fn room(&self) -> u32
        ensures room { result ≡ self.now.room }
        ensures most { result ≤ 512 }
    {
        self.room
    }
}
