// Laws on the entries of an area.
ghost use Rattle.std.specs.Prelude.{◌≡◌, ◌⊎◌, ◌≤◌, ◌+◌, ◌*◌, [], ◌∷◌, ◌++◌, ℕ, List, Some};
ghost use Rattle.board.specs.Flash.{Flash, IsImage};
ghost use Rattle.commit_gate.specs.Commits.{IsBeforeOrAfter, Stands};
ghost use Rattle.commit_gate.specs.Entries.{HasEntries, area_of, entries_from};

/// The entries that an area has are those that are read from it.
pub fn entries_are_read()
    ensures read { (area : ℕ → List ℕ) (at : ℕ) (entries : List (List ℕ)) (end : ℕ)
        → HasEntries area at entries end → entries_from 512 area at ≡ Some entries }
    ensures has { (area : ℕ → List ℕ) (at : ℕ) (entries : List (List ℕ))
        → entries_from 512 area at ≡ Some entries → (end : ℕ) × HasEntries area at entries end }
{}

/// Entries that stand are read from each image, and while one more is written they are read with it
/// or without.
pub fn images_are_read()
    ensures standing { (blocks : ℕ) (flash : Flash) (base start : ℕ) (entries : List (List ℕ))
        (end : ℕ) (image : ℕ → List ℕ) → base + 512 ≤ 256 * blocks
        → Stands flash base start entries end → IsImage blocks flash image
        → entries_from 512 (area_of base image) start ≡ Some entries }
    ensures written { (blocks : ℕ) (flash : Flash) (base start : ℕ) (entries : List (List ℕ))
        (at : ℕ) (entry : List ℕ) (image : ℕ → List ℕ)
        → IsBeforeOrAfter blocks flash base start entries at entry image
        → (entries_from 512 (area_of base image) start ≡ Some entries)
        ⊎ (entries_from 512 (area_of base image) start ≡ Some (entries ++ entry ∷ [])) }
{}
