// Laws on the octets of changes and of checkpoints.
ghost use Rattle.std.specs.Prelude.{◌≡◌, ◌↔◌, ◌<◌, ◌^◌, ◌++◌, ℕ, [], All, List, Some, length, map, true};
ghost use Rattle.store_directory.specs.Changes.{Change};
ghost use Rattle.std.specs.List.{list_all};
ghost use Rattle.control_defs.specs.Lists.{is_pattern_list};
ghost use Rattle.store_directory.specs.Checkpoints.{apply_stores, bare, checkpoint_in, checkpoint_octets, is_lawful, read_checkpoint};
ghost use Rattle.store_directory.specs.Directory.{Directory, IsDirectory, are_distinct, identifiers, with_stores};
ghost use Rattle.store_directory.specs.Entries.{FitsChange, change_in, change_octets, changes_in, entry_octets, width_in};
ghost use Rattle.store_directory.specs.Fitting.{FitsDirectory};
ghost use Rattle.store_directory.specs.Same.{same_directory};

/// A change whose numbers fit is read back from its octets, whatever stands behind them, and so is
/// how many they are.
pub fn written_changes_are_read()
    ensures change { (change : Change) (rest : List ℕ) → FitsChange change
        → change_in (change_octets change ++ rest) ≡ Some change }
    ensures width { (change : Change) (rest : List ℕ) → FitsChange change
        → width_in (change_octets change ++ rest) ≡ length (change_octets change) }
{}

/// An entry of changes whose numbers fit is read back from its octets.
pub fn written_entries_are_read()
    ensures { (changes : List Change) → All FitsChange changes
        → changes_in (entry_octets changes) ≡ Some changes }
{}

/// A directory whose numbers fit is read back from the text of its checkpoint, and so are the erase
/// counts.
pub fn written_checkpoints_are_read()
    ensures { (d : Directory) (wear : List ℕ) → FitsDirectory d → All (λ count. count < 2 ^ 32) wear
        → checkpoint_in (length wear) (checkpoint_octets d wear)
        ≡ Some (record { directory = d; wear = wear }) }
{}

/// A directory as it is kept is lawful, so the text of its checkpoint gives it back.
pub fn kept_directories_are_read()
    ensures lawful { (d : Directory) → IsDirectory d → is_lawful d ≡ true }
    ensures read { (d : Directory) (wear : List ℕ) → IsDirectory d → All (λ count. count < 2 ^ 32) wear
        → read_checkpoint (length wear) (checkpoint_octets d wear)
        ≡ Some (record { directory = d; wear = wear }) }
{}

/// The stores of a directory as it is kept fit one after another, each row as a put and its blocks as
/// links. And a directory whose stores fit so is lawful where its number of reports and its lists of
/// patterns are, and its identifiers differ.
pub fn directories_fit_in_turn()
    ensures fits { (d : Directory) → IsDirectory d
        → apply_stores (with_stores d []) d.stores ≡ Some (with_stores d (map bare d.stores)) }
    ensures lawful { (d e : Directory) → d.reports < 16384 → is_pattern_list d.forward ≡ true
        → list_all (λ s. is_pattern_list s.patterns) d.stores ≡ true
        → are_distinct (identifiers d.stores) ≡ true
        → apply_stores (with_stores d []) d.stores ≡ Some e → is_lawful d ≡ true }
{}

/// Two directories are one exactly where the test of them holds.
pub fn directories_are_compared()
    ensures { (d other : Directory) → (same_directory d other ≡ true) ↔ (d ≡ other) }
{}
