// Laws on the directory that an image holds.
ghost use Rattle.std.specs.Prelude.{◌≡◌, ◌≤◌, ◌<◌, ◌↔◌, ◌++◌, ◌∷◌, [], ℕ, Bool, List, None, Some, false, true};
ghost use Rattle.std.specs.Option.{option_and_then};
ghost use Rattle.board.specs.Flash.{Flash, IsImage};
ghost use Rattle.board.specs.Touches.{KeptElsewhere};
ghost use Rattle.commit_gate.specs.Entries.{Entry, HasEntries, text_at};
ghost use Rattle.root_vote.specs.declared.root.Root.{Root};
ghost use Rattle.root_vote.specs.declared.votes.Choice.TheVariants.{Agreed, Nobody, Split};
ghost use Rattle.root_vote.specs.Rooted.{IsBetween, IsRepaired, Rooted};
ghost use Rattle.root_vote.specs.Roots.{choice_of};
ghost use Rattle.store_directory.specs.Directory.{Directory};
ghost use Rattle.store_directory.specs.Folds.{fold_entry};
ghost use Rattle.meta_journal.specs.Directories.{FirmHalves, HoldsHalf, SameJournal, directory_of};
ghost use Rattle.meta_journal.specs.Directories.{directory_in, half_area, is_own};
ghost use Rattle.meta_journal.specs.Halves.{half_of};
ghost use Rattle.meta_journal.specs.Journals.{FirmJournal, Holds, IsJournal};
ghost use Rattle.meta_journal.specs.Standing.{Kept, StandsFor, room_from};

/// Images that agree on the three root pages and on the half that counts, or on both halves where
/// the roots are split, hold the same directory. All other pages may hold anything, and among them
/// the half that does not count.
pub fn other_pages_may_hold_anything()
    ensures { (blocks : ℕ) (image other : ℕ → List ℕ) → SameJournal image other
        → directory_of blocks other ≡ directory_of blocks image }
{}

/// If the three roots are one root of this device, and its half holds a directory, then each image
/// holds that directory.
pub fn rooted_images_hold_the_directory()
    ensures { (blocks : ℕ) (flash : Flash) (root : Root) (d : Directory) (image : ℕ → List ℕ)
        → 16 ≤ blocks → Rooted root flash → is_own blocks root ≡ true
        → HoldsHalf blocks (half_of root) d flash → IsImage blocks flash image
        → directory_of blocks image ≡ Some d }
{}

/// While the roots go from one root of this device to another, and both halves hold one directory,
/// each image holds that directory.
pub fn advancing_keeps_the_directory()
    ensures { (blocks : ℕ) (flash : Flash) (new old : Root) (d : Directory) (image : ℕ → List ℕ)
        → 16 ≤ blocks → is_own blocks new ≡ true → is_own blocks old ≡ true
        → HoldsHalf blocks 0 d flash → HoldsHalf blocks 1 d flash
        → IsBetween blocks flash new old image → directory_of blocks image ≡ Some d }
{}

/// While the roots are made one again, each image holds the directory that the flash held, if the
/// halves that count are firm.
pub fn repairing_keeps_the_directory()
    ensures { (blocks : ℕ) (flash : Flash) (d : Directory) (image : ℕ → List ℕ)
        → 16 ≤ blocks → directory_of blocks flash.content ≡ Some d → FirmHalves flash
        → IsRepaired blocks flash (choice_of flash.content) image
        → directory_of blocks image ≡ Some d }
{}

/// Each image of a flash that keeps a journal holds the journal's directory.
pub fn journals_hold_their_directory()
    ensures { (blocks : ℕ) (flash : Flash) (root : Root) (d : Directory) (at : ℕ)
        (image : ℕ → List ℕ) → 16 ≤ blocks → at ≤ 512 → IsJournal blocks root d at flash
        → IsImage blocks flash image → directory_of blocks image ≡ Some d }
{}

/// A flash keeps its journal while the blocks 0 to 6 are as they are.
pub fn other_blocks_may_change()
    ensures { (blocks : ℕ) (root : Root) (d : Directory) (at : ℕ) (these : ℕ → Bool)
        (flash new : Flash) → at ≤ 512 → ((p : ℕ) → p < 1792 → these p ≡ false)
        → KeptElsewhere these flash new → IsJournal blocks root d at flash
        → IsJournal blocks root d at new }
{}

/// If a half has one entry more than another, behind the same checkpoint, it holds the directory of
/// that one with the entry folded over it, and none where that holds none or the entry does not fit.
pub fn halves_hold_one_entry_more()
    ensures { (blocks : ℕ) (area more : ℕ → List ℕ) (text : List ℕ) (start : ℕ)
        (entries : List (List ℕ)) (entry : List ℕ) (end next : ℕ)
        → text_at 20476 area 0 ≡ Entry text start → HasEntries area start entries end
        → text_at 20476 more 0 ≡ Entry text start
        → HasEntries more start (entries ++ entry ∷ []) next
        → directory_in blocks more ≡ option_and_then (λ d. fold_entry d entry) (directory_in blocks area) }
{}

/// What an image holds by the choice of its roots: the directory of the half that they agree on, or
/// of both halves if they are split. Each root concerned is one of this device.
pub fn choices_hold_directories()
    ensures agreed { (blocks : ℕ) (image : ℕ → List ℕ) (root : Root) (d : Directory)
        → choice_of image ≡ Agreed root → Holds blocks d image
        ↔ ((is_own blocks root ≡ true)
        × (directory_in blocks (half_area (half_of root) image) ≡ Some d)) }
    ensures split { (blocks : ℕ) (image : ℕ → List ℕ) (first last : Root) (d : Directory)
        → choice_of image ≡ Split first last → Holds blocks d image
        ↔ ((is_own blocks first ≡ true) × (is_own blocks last ≡ true)
        × (directory_in blocks (half_area 0 image) ≡ Some d)
        × (directory_in blocks (half_area 1 image) ≡ Some d)) }
    ensures nobody { (blocks : ℕ) (image : ℕ → List ℕ) → choice_of image ≡ Nobody
        → directory_of blocks image ≡ None }
{}

/// If no page of the blocks 0 to 6 is loose, each image holds the directory that the flash holds. A
/// journal with room that stands for the flash is then the journal of that directory.
pub fn firm_journals_hold_the_directory()
    ensures images { (blocks : ℕ) (flash : Flash) (d : Directory) (image : ℕ → List ℕ)
        → 16 ≤ blocks → FirmJournal flash → Holds blocks d flash.content
        → IsImage blocks flash image → Holds blocks d image }
    ensures journal { (blocks : ℕ) (flash : Flash) (d : Directory) (j : Kept) → 1 ≤ j.room
        → StandsFor j flash → FirmJournal flash → Holds blocks d flash.content
        → IsJournal blocks j.root d (room_from j) flash }
{}
