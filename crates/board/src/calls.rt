// The calls of each kind: how many there were, and which are to fail.
ghost use Rattle.std.specs.Prelude.{◌≡◌, ◌≤◌, ◌+◌, ◌↔◌, ◌++◌, [], ◌∷◌, Contains, IsTrue, OnErr, OnOk};
ghost use Rattle.board.specs.Counts.{Rose};
ghost use Rattle.board.specs.Kinds.{at_kind, changed, each, one_more};

use std::alloc::{AllocError, Global};

/// The calls that can be planned to fail.
#[derive(Clone, Copy, Debug, PartialEq, Eq)]
pub enum CallKind {
    Read,
    Program,
    Erase,
    Barrier,
    Send,
}

/// The calls of one kind.
#[derive(Drop)]
pub struct KindCalls {
    pub made: u64,
    pub planned: Vec<u64>,
}

impl KindCalls {
    /// No call was made, and none is to fail.
    pub fn new(alloc: Global) -> Self
        ensures made { result.made ≡ 0 }
        ensures planned { result.planned.items ≡ [] }
    {
        KindCalls {
            made: 0,
            planned: Vec::new(alloc),
        }
    }

    /// The call with this number, counted from 1, is to fail too.
    pub fn plan(&mut self, number: u64) -> Result<(), AllocError>
        ensures ok { OnOk result (self.new.planned.items ≡ self.old.planned.items ++ number ∷ []) }
        ensures err { OnErr result (self.new.planned.items ≡ self.old.planned.items) }
        ensures made { self.new.made ≡ self.old.made }
    {
        self.planned.push(number)?;
        Ok(())
    }

    /// Counts a call, and answers whether it fails.
    pub fn fails_next(&mut self) -> bool
        ensures made { self.new.made ≡ one_more self.old.made }
        ensures rises { self.old.made ≤ self.new.made }
        ensures by_one { self.new.made ≤ self.old.made + 1 }
        ensures rose { Rose self.old.made self.new.made }
        ensures planned { self.new.planned.items ≡ self.old.planned.items }
        ensures fails { IsTrue result ↔ Contains self.old.planned.items self.new.made }
    {
        self.made = self.made.saturating_add(1);
        self.planned.contains(&self.made)
    }
}

/// The calls of every kind.
#[derive(Drop)]
pub struct Calls {
    pub reads: KindCalls,
    pub programs: KindCalls,
    pub erases: KindCalls,
    pub barriers: KindCalls,
    pub sends: KindCalls,
}

impl Calls {
    ghost use Rattle.board.specs.Calls.{made_in, planned_in};

    /// No call was made, and none is to fail.
    pub fn new(alloc: Global) -> Self
        ensures made { made_in result ≡ each 0 }
        ensures planned { planned_in result ≡ each [] }
    {
        Calls {
            reads: KindCalls::new(alloc),
            programs: KindCalls::new(alloc),
            erases: KindCalls::new(alloc),
            barriers: KindCalls::new(alloc),
            sends: KindCalls::new(alloc),
        }
    }

    /// How many calls of a kind there were, those that failed among them.
    pub fn count(&self, kind: CallKind) -> u64
        ensures { result ≡ at_kind kind (made_in self.now) }
    {
        match kind {
            CallKind::Read => self.reads.made,
            CallKind::Program => self.programs.made,
            CallKind::Erase => self.erases.made,
            CallKind::Barrier => self.barriers.made,
            CallKind::Send => self.sends.made,
        }
    }

    /// The call of that kind with this number, counted from 1, is to fail too.
    pub fn plan(&mut self, kind: CallKind, number: u64) -> Result<(), AllocError>
        ensures ok { OnOk result (planned_in self.new ≡ changed kind (λ numbers. numbers ++ number ∷ []) (planned_in self.old)) }
        ensures err { OnErr result (planned_in self.new ≡ planned_in self.old) }
        ensures made { made_in self.new ≡ made_in self.old }
    {
        match kind {
            CallKind::Read => self.reads.plan(number),
            CallKind::Program => self.programs.plan(number),
            CallKind::Erase => self.erases.plan(number),
            CallKind::Barrier => self.barriers.plan(number),
            CallKind::Send => self.sends.plan(number),
        }
    }

    /// Counts a call, and answers whether it fails.
    pub fn fails_next(&mut self, kind: CallKind) -> bool
        ensures made { made_in self.new ≡ changed kind one_more (made_in self.old) }
        ensures rises { at_kind kind (made_in self.old) ≤ at_kind kind (made_in self.new) }
        ensures by_one { at_kind kind (made_in self.new) ≤ at_kind kind (made_in self.old) + 1 }
        ensures rose { Rose (at_kind kind (made_in self.old)) (at_kind kind (made_in self.new)) }
        ensures planned { planned_in self.new ≡ planned_in self.old }
        ensures fails { IsTrue result ↔ Contains (at_kind kind (planned_in self.old)) (at_kind kind (made_in self.new)) }
    {
        match kind {
            CallKind::Read => self.reads.fails_next(),
            CallKind::Program => self.programs.fails_next(),
            CallKind::Erase => self.erases.fails_next(),
            CallKind::Barrier => self.barriers.fails_next(),
            CallKind::Send => self.sends.fails_next(),
        }
    }
}
