// Laws on the end of a request.
ghost use Rattle.std.specs.Prelude.{◌≡◌, ℕ, List, length};
ghost use Rattle.control_defs.specs.declared.instructions.Instruction.{Instruction};
ghost use Rattle.pst_model.specs.Answers.{carry_out};
ghost use Rattle.pst_model.specs.Table.{Table};
ghost use Rattle.store_directory.specs.Changes.{Change};
ghost use Rattle.store_directory.specs.Directory.{Directory};
ghost use Rattle.time_index.specs.TimeIndex.{TimeIndex};
ghost use Rattle.request_laws.specs.Carrying.{HasCarried, HasEnded, carried_up_to};
ghost use Rattle.request_laws.specs.Counting.{CanBeCarried};

/// Once all instructions were carried out, the change of the clock behind the others makes the
/// directory of the table behind the request. The entry of these changes has 9 to 969 octets.
pub fn requests_end()
    ensures ended { (blocks acks : ℕ) (d : Directory) (table : Table) (items : List Instruction)
        (changes : List Change) (next : Directory) (indexes : List TimeIndex) → CanBeCarried items
        → HasCarried blocks d table items (length items) changes next indexes
        → HasEnded blocks d table acks items changes next }
    ensures all { (blocks : ℕ) (items : List Instruction) (table : Table)
        → carried_up_to blocks items (length items) table ≡ carry_out blocks items table }
{}
