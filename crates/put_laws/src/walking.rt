// Laws on an arriving packet on its way along the stores: each store whose turn it is makes its
// changes of the directory, and the image holds the table that the model gives so far.
ghost use Rattle.std.specs.Prelude.{◌≡◌, ◌≤◌, ◌<◌, ◌^◌, ◌==◌, ◌∷◌, [], false, max, true, ℕ, List, Some, length};
ghost use Rattle.board.specs.Flash.{IsContent};
ghost use Rattle.image_table.specs.Table.{in_records, table_by};
ghost use Rattle.pst_model.specs.Arrivals.{arrive, is_offered};
ghost use Rattle.pst_model.specs.Table.{Store, Stored, Table};
ghost use Rattle.record_view.specs.declared.link.Link.{Link};
ghost use Rattle.space_packet.specs.Packet.{apid_of};
ghost use Rattle.store_directory.specs.Changes.{Change, Clock, apply};
ghost use Rattle.store_directory.specs.Directory.{Directory, IsDirectory, Listed};
ghost use Rattle.store_directory.specs.Entries.{entry_octets};
ghost use Rattle.store_directory.specs.Folds.{fold_entry};
ghost use Rattle.put_laws.specs.Puts.{Accepts, Begins, Refuses, SpellsBehind, SpellsFirst, Stays, Takes, Tells};
ghost use Rattle.put_laws.specs.Walks.{HasGoneOn, HasOffered, IsTurn, clock_of};

/// A walk begins with the change of the clock: the time rises to that of the packet, and the
/// reports of all refusals are counted.
pub fn walks_begin()
    ensures { (blocks : ℕ) (image : ℕ → List ℕ) (d : Directory) (table : Table) (stored : Stored)
        → IsContent blocks image → IsDirectory d → table_by blocks image d ≡ Some table
        → d.now ≤ stored.time → stored.time < 2 ^ 48
        → (next : Directory) × (apply d (clock_of stored table) ≡ Some next)
        × HasOffered blocks image d table stored 0 (clock_of stored table ∷ []) next }
{}

/// A store changes nothing to which the packet is not offered, or which refuses it and has told a
/// refusal already.
pub fn walks_pass_stores()
    ensures unoffered { (blocks : ℕ) (image : ℕ → List ℕ) (d : Directory) (table : Table)
        (stored : Stored) (at : ℕ) (changes : List Change) (before : Directory) (s : Listed)
        (store : Store) → HasOffered blocks image d table stored at changes before
        → IsTurn d table at s store → is_offered stored.octets store ≡ false
        → HasGoneOn blocks image d table stored at changes before s Stays }
    ensures told { (blocks : ℕ) (image : ℕ → List ℕ) (d : Directory) (table : Table)
        (stored : Stored) (at : ℕ) (changes : List Change) (before : Directory) (s : Listed)
        (store : Store) → HasOffered blocks image d table stored at changes before
        → IsTurn d table at s store → Refuses store stored → s.told ≡ true
        → HasGoneOn blocks image d table stored at changes before s Stays }
{}

/// A store that refuses the packet tells it by a put of its row.
pub fn walks_tell_refusals()
    ensures { (blocks : ℕ) (image : ℕ → List ℕ) (d : Directory) (table : Table) (stored : Stored)
        (at : ℕ) (changes : List Change) (before : Directory) (s : Listed) (store : Store)
        → HasOffered blocks image d table stored at changes before
        → IsTurn d table at s store → Refuses store stored
        → HasGoneOn blocks image d table stored at changes before s Tells }
{}

/// A store takes the packet into its last block, where the record is spelled behind the last one:
/// a put of its row takes the fewest packets from the front that have to leave, and counts the
/// record.
pub fn walks_take_packets()
    ensures { (blocks : ℕ) (image : ℕ → List ℕ) (d : Directory) (table : Table) (stored : Stored)
        (at : ℕ) (changes : List Change) (before : Directory) (s : Listed) (store : Store)
        (gone : ℕ) → HasOffered blocks image d table stored at changes before
        → IsTurn d table at s store → Accepts store stored gone → SpellsBehind image s stored
        → HasGoneOn blocks image d table stored at changes before s (Takes gone) }
{}

/// A store takes the packet into a new block, which begins with the record: the block is linked
/// before the put. The store has no block yet, or a last one that is full; its reservation has
/// room for one more.
pub fn walks_begin_blocks()
    ensures { (blocks : ℕ) (image : ℕ → List ℕ) (d : Directory) (table : Table) (stored : Stored)
        (at : ℕ) (changes : List Change) (before : Directory) (s : Listed) (store : Store)
        (gone : ℕ) (link : Link) → HasOffered blocks image d table stored at changes before
        → IsTurn d table at s store → Accepts store stored gone
        → SpellsFirst blocks image before s link stored
        → HasGoneOn blocks image d table stored at changes before s (Begins gone link) }
{}

/// A walk stands on each image that has the pages of its records. The record of a later store is
/// written beside them.
pub fn walks_stay_beside()
    ensures { (blocks : ℕ) (image other : ℕ → List ℕ) (d : Directory) (table : Table)
        (stored : Stored) (at : ℕ) (changes : List Change) (next : Directory)
        → HasOffered blocks image d table stored at changes next → IsContent blocks other
        → ((p : ℕ) → in_records image p next ≡ true → other p ≡ image p)
        → HasOffered blocks other d table stored at changes next }
{}

/// The entry of a walk's changes makes the directory behind them. Once each store was offered the
/// packet, that one's table is the model's table behind the arrival.
pub fn walks_end()
    ensures entry { (blocks : ℕ) (image : ℕ → List ℕ) (d : Directory) (table : Table)
        (stored : Stored) (at : ℕ) (changes : List Change) (next : Directory)
        → HasOffered blocks image d table stored at changes next
        → fold_entry d (entry_octets changes) ≡ Some next }
    ensures table { (blocks : ℕ) (image : ℕ → List ℕ) (d : Directory) (table : Table)
        (number moment : ℕ) (packet : List ℕ) (at : ℕ) (changes : List Change) (next : Directory)
        → HasOffered blocks image d table
        (record { time = max table.now moment; octets = packet }) at changes next
        → length table.stores ≤ at → (apid_of packet == 2047) ≡ false
        → table_by blocks image next ≡ Some (arrive number moment packet table).table }
{}

/// An idle packet changes the clock alone: the entry has that change.
pub fn idle_packets_change_the_clock()
    ensures { (blocks : ℕ) (image : ℕ → List ℕ) (d : Directory) (table : Table)
        (number moment : ℕ) (packet : List ℕ)
        → IsContent blocks image → IsDirectory d → table_by blocks image d ≡ Some table
        → max table.now moment < 2 ^ 48 → (apid_of packet == 2047) ≡ true
        → (next : Directory) × IsDirectory next × (next.stores ≡ d.stores)
        × (fold_entry d (entry_octets (Clock (max table.now moment) table.reports ∷ [])) ≡ Some next)
        × (table_by blocks image next ≡ Some (arrive number moment packet table).table) }
{}
