// What holds of the stores of a table behind every command.
ghost use Rattle.std.specs.Prelude.{◌≡◌, ◌≤◌, ◌-◌, ℕ, All, IfOk, List, Ok, drop, false, filter, length, nat_le, nat_lt, take};
ghost use Rattle.std.specs.List.Sorted.{IsNonDecreasingBy};
ghost use Rattle.control_defs.specs.declared.instructions.Instruction.{Instruction};
ghost use Rattle.control_defs.specs.declared.instructions.Instruction.TheVariants.{Copy};
ghost use Rattle.control_defs.specs.declared.instructions.StoreKind.TheVariants.{Bounded};
ghost use Rattle.pst_model.specs.Command.{Command};
ghost use Rattle.pst_model.specs.Instructions.{instruct};
ghost use Rattle.pst_model.specs.Laws.{AreDistinct, HasCopied, InOrder, IsConfigured, IsFilled, IsRanged, IsReserved, IsTimed, identifiers, time_of};
ghost use Rattle.pst_model.specs.Ranges.{count_below, count_up_to, window_of};
ghost use Rattle.pst_model.specs.Rules.{is_refused, to_drop};
ghost use Rattle.pst_model.specs.Run.{step};
ghost use Rattle.pst_model.specs.Table.{Store, Stored, Table};

/// A range has a position, and ends within the packets of its store.
pub fn ranges_stay_within()
    ensures { (blocks number : ℕ) (command : Command) (table : Table)
        → All IsRanged table.stores
        → All IsRanged (step blocks number command table).table.stores }
{}

/// The packets of a store take no more pages than its size.
pub fn contents_stay_within()
    ensures { (blocks number : ℕ) (command : Command) (table : Table)
        → All IsFilled table.stores
        → All IsFilled (step blocks number command table).table.stores }
{}

/// Sizes stay from 1 to 100,000 pages, and channels from 1 to 7.
pub fn configurations_stay_lawful()
    ensures { (blocks number : ℕ) (command : Command) (table : Table)
        → All IsConfigured table.stores
        → All IsConfigured (step blocks number command table).table.stores }
{}

/// The times of the packets of a store never fall, and are at most the last storage time.
pub fn times_never_fall()
    ensures { (blocks number : ℕ) (command : Command) (table : Table)
        → All (IsTimed table.now) table.stores
        → All (IsTimed (step blocks number command table).table.now)
        (step blocks number command table).table.stores }
{}

/// Stores stay in the order of their creation, with identifiers of their own.
pub fn stores_stay_in_order()
    ensures order { (blocks number : ℕ) (command : Command) (table : Table)
        → InOrder (identifiers table.stores)
        (identifiers (step blocks number command table).table.stores) }
    ensures distinct { (blocks number : ℕ) (command : Command) (table : Table)
        → AreDistinct (identifiers table.stores)
        → AreDistinct (identifiers (step blocks number command table).table.stores) }
{}

/// There are at most 32 stores.
pub fn stores_stay_few()
    ensures { (blocks number : ℕ) (command : Command) (table : Table)
        → length table.stores ≤ 32
        → length (step blocks number command table).table.stores ≤ 32 }
{}

/// The stores of a device reserve at most its blocks but eight: behind each instruction, and behind
/// every command.
pub fn reservations_stay_within()
    ensures instruction { (blocks : ℕ) (item : Instruction) (table : Table)
        → IsReserved blocks table.stores
        → IfOk (instruct blocks item table) (λ next. IsReserved blocks next.stores) }
    ensures command { (blocks number : ℕ) (command : Command) (table : Table)
        → IsReserved blocks table.stores
        → IsReserved blocks (step blocks number command table).table.stores }
{}

/// A copy leaves its source as it was, and each other store but its destination.
pub fn copies_leave_their_source()
    ensures { (blocks from to t1 t2 : ℕ) (table next : Table)
        → instruct blocks (Copy from to t1 t2) table ≡ Ok next
        → HasCopied from to t1 t2 table next }
{}

/// No packet leaves a bounded store for another one.
pub fn bounded_stores_drop_nothing()
    ensures { (store : Store) (need : ℕ) → store.kind ≡ Bounded → IsFilled store
        → is_refused store need ≡ false
        → to_drop store need ≡ 0 }
{}

/// Along times that never fall, the packets of a window are a run of neighbours, from as many as are
/// before it on; those that a deletion leaves are the ones later than its time; and those that open
/// retrieval has ahead from a time are the ones at it or later.
pub fn times_part_the_packets()
    ensures window { (t1 t2 : ℕ) (packets : List Stored) → t1 ≤ t2
        → IsNonDecreasingBy time_of packets
        → window_of t1 t2 packets
        ≡ take (count_up_to t2 packets - count_below t1 packets)
        (drop (count_below t1 packets) packets) }
    ensures deleted { (t : ℕ) (packets : List Stored) → IsNonDecreasingBy time_of packets
        → drop (count_up_to t packets) packets
        ≡ filter (λ (stored : Stored). nat_lt t stored.time) packets }
    ensures ahead { (t : ℕ) (packets : List Stored) → IsNonDecreasingBy time_of packets
        → drop (count_below t packets) packets
        ≡ filter (λ (stored : Stored). nat_le t stored.time) packets }
{}
