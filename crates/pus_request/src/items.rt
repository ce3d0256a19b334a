// The items of a request, as a view of its data.
ghost use Rattle.std.specs.Prelude.{◌≡◌, ◌<◌, ◌≤◌, ◌∷◌, ℕ, All, None, Some, drop, length, slice_get};
ghost use Rattle.control_defs.specs.Instructions.{IsInstruction};
ghost use Rattle.pst_model.specs.Items.{kind_asked};
ghost use Rattle.pst_model.specs.Requests.{SpellsRequest, malformed_at};
ghost use Rattle.pus_request.specs.Kinds.{asked_by, row_of};

use crate::kinds::Kind;
use crate::spelled::item_at;
use control_defs::Instruction;

/// The instructions of one kind that the data of a request spells: a list of 1 to 32, or one alone.
#[derive(Clone, Copy)]
pub struct Items<'a> {
    kind: Kind,
    body: &'a [u8],
    ghost faultless: { malformed_at (row_of kind) body.now ≡ None },
    ghost octets: { All (λ (octet : ℕ). octet < 256) body.now },
}

impl<'a> Items<'a> {
    ghost use Rattle.pus_request.specs.View.{asked, listed};

    /// The view of data that is known to have no fault as that of a request of this kind.
    pub(crate) fn new(kind: Kind, body: &'a [u8]) -> Items<'a>
        requires { malformed_at (row_of kind) body.now ≡ None }
        ensures kind { result.kind ≡ kind }
        ensures body { result.body.now ≡ body.now }
        ensures spelled { SpellsRequest (asked_by kind).0 (asked_by kind).1 body.now
            (listed result) }
    {
        Items { kind, body }
    }

    /// How many instructions there are: 1 to 32.
    pub fn len(&self) -> u32
        ensures length { result ≡ length (listed self.now) }
        ensures some { 1 ≤ result }
        ensures few { result ≤ 32 }
    {
        u32::from(self.kind.count_in(self.body))
    }

    /// The first instruction: there is one.
    pub fn first(&self) -> Instruction
        ensures { listed self.now ≡ result ∷ drop 1 (listed self.now) }
    {
        self.get(0)
    }

    /// The instruction at this place. Places are counted from 0.
    pub fn get(&self, at: u32) -> Instruction
        requires { at < length (listed self.now) }
        ensures item { slice_get (listed self.now) at ≡ Some result }
        ensures lawful { IsInstruction result }
        ensures kind { kind_asked result ≡ asked self.now }
    {
        item_at(self.kind, self.body, self.kind.place_of(at as usize))
    }
}
