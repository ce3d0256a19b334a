// Laws on stores that keep their records, and on the memory that the changes of a request take.
ghost use Rattle.std.specs.Prelude.{◌≡◌, ◌≤◌, ℕ, List, Some, length};
ghost use Rattle.control_defs.specs.declared.instructions.Instruction.{Instruction};
ghost use Rattle.image_table.specs.Table.{in_records};
ghost use Rattle.store_directory.specs.Changes.{Change};
ghost use Rattle.store_directory.specs.Directory.{Directory, Listed, find_store, identifiers, reserved_by};
ghost use Rattle.store_directory.specs.Kept.{NeedsRoom};
ghost use Rattle.store_directory.specs.Slots.{size_of};
ghost use Rattle.store_load.specs.Claims.{all_links, may_share};
ghost use Rattle.store_load.specs.InRange.{IsInRange};
ghost use Rattle.store_load.specs.Loaded.{index_of, used_in};
ghost use Rattle.store_load.specs.declared.rule.Rule.{Rule};
ghost use Rattle.store_policy.specs.Shown.{AreAllTogether};
ghost use Rattle.time_index.specs.TimeIndex.{TimeIndex};
ghost use Rattle.request_laws.specs.Changing.{AllKeepRecords, KeepsRecords, change_by};

/// Stores that keep their records are as many, under the same identifiers, reserve and use the same
/// blocks, and stay together with the same indexes. Their records lie in the same pages.
pub fn stores_stay_in_place()
    ensures count { (old new : List Listed) → AllKeepRecords old new → length new ≡ length old }
    ensures identifiers { (old new : List Listed) → AllKeepRecords old new
        → identifiers new ≡ identifiers old }
    ensures reserved { (old new : List Listed) → AllKeepRecords old new
        → reserved_by new ≡ reserved_by old }
    ensures links { (old new : List Listed) → AllKeepRecords old new
        → all_links new ≡ all_links old }
    ensures share { (least blocks : ℕ) (old new : List Listed) → AllKeepRecords old new
        → may_share least blocks new ≡ may_share least blocks old }
    ensures together { (old new : List Listed) (indexes : List TimeIndex) → AllKeepRecords old new
        → AreAllTogether old indexes → AreAllTogether new indexes }
    ensures pages { (image : ℕ → List ℕ) (p : ℕ) (d next : Directory)
        → AllKeepRecords d.stores next.stores
        → in_records image p next ≡ in_records image p d }
{}

/// A store that keeps its records has the same index on each image, uses as many pages of its last
/// block, and nothing of it is out of range that was not.
pub fn records_stay_in_place()
    ensures index { (rule : Rule) (image : ℕ → List ℕ) (now : ℕ) (old new : Listed)
        → KeepsRecords old new
        → index_of rule image now new.row new.links ≡ index_of rule image now old.row old.links }
    ensures used { (image : ℕ → List ℕ) (old new : Listed) → KeepsRecords old new
        → used_in image new.row new.links ≡ used_in image old.row old.links }
    ensures in_range { (rule : Rule) (now : ℕ) (old new : Listed) (index : TimeIndex) (used : ℕ)
        → KeepsRecords old new → IsInRange rule now old.row old.links index used
        → IsInRange rule now new.row new.links index used }
{}

/// The change of an instruction needs no memory: its store stands, and stays as great as it is.
pub fn changes_take_no_memory()
    ensures { (d : Directory) (indexes : List TimeIndex) (item : Instruction) (change : Change)
        (largest : ℕ → ℕ)
        → ((identifier : ℕ) → size_of (find_store identifier d.stores) ≤ largest identifier)
        → change_by d indexes item ≡ Some change → NeedsRoom change largest → ⊥ }
{}
