// Laws on a request on its way through its instructions: each fails, asks or takes effect, and the
// directory stays that of the model's table.
ghost use Rattle.std.specs.Prelude.{◌≡◌, All, ◌+◌, ◌∷◌, ℕ, List, [], None, Some, Ok, Err, slice_get};
ghost use Rattle.control_defs.specs.declared.instructions.Instruction.{Instruction};
ghost use Rattle.pst_model.specs.Instructions.{instruct};
ghost use Rattle.pst_model.specs.Table.{Table};
ghost use Rattle.store_directory.specs.Changes.{Change};
ghost use Rattle.store_directory.specs.Directory.{Directory};
ghost use Rattle.request_laws.specs.Carrying.{HasCarried, HasChanged, HasPassed, carried_up_to};
ghost use Rattle.time_index.specs.TimeIndex.{TimeIndex};
ghost use Rattle.request_laws.specs.Changing.{BeginsWell, change_by};
ghost use Rattle.request_laws.specs.Counting.{CanBeCarried};

/// An instruction that fails is told by its number, from 1, and its code, and changes nothing.
pub fn instructions_fail()
    ensures { (blocks : ℕ) (d : Directory) (table : Table) (items : List Instruction) (at : ℕ)
        (changes : List Change) (before : Directory) (indexes : List TimeIndex) (item : Instruction)
        (code : ℕ) → HasCarried blocks d table items at changes before indexes
        → slice_get items at ≡ Some item
        → instruct blocks item (carried_up_to blocks items at table).table ≡ Err code
        → HasPassed blocks d table items at changes before indexes ((at + 1, code) ∷ []) }
{}

/// An instruction that does not fail and makes no change of the directory only asks.
pub fn instructions_ask()
    ensures { (blocks : ℕ) (d : Directory) (table next : Table) (items : List Instruction) (at : ℕ)
        (changes : List Change) (before : Directory) (indexes : List TimeIndex) (item : Instruction)
        → CanBeCarried items → HasCarried blocks d table items at changes before indexes
        → slice_get items at ≡ Some item
        → instruct blocks item (carried_up_to blocks items at table).table ≡ Ok next
        → change_by before indexes item ≡ None
        → HasPassed blocks d table items at changes before indexes [] }
{}

/// An instruction that does not fail takes effect by its change, which fits the directory, where each
/// store begins well. Where it counts packets by their times it does so by the index of its store.
pub fn instructions_take_effect()
    ensures { (blocks : ℕ) (d : Directory) (table next : Table) (items : List Instruction) (at : ℕ)
        (changes : List Change) (before : Directory) (indexes : List TimeIndex) (item : Instruction)
        (change : Change) → CanBeCarried items
        → HasCarried blocks d table items at changes before indexes
        → All BeginsWell before.stores → slice_get items at ≡ Some item
        → instruct blocks item (carried_up_to blocks items at table).table ≡ Ok next
        → change_by before indexes item ≡ Some change
        → HasChanged blocks d table items at changes before indexes item change }
{}
