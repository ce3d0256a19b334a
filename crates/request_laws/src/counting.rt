// Laws on the number of reports that answer a request.
ghost use Rattle.std.specs.Prelude.{◌≡◌, ◌&&◌, ℕ, List, length, nat_lt};
ghost use Rattle.control_defs.specs.declared.instructions.Instruction.{Instruction};
ghost use Rattle.pst_model.specs.Answers.{answer_carried, carry_out, reports_on};
ghost use Rattle.pst_model.specs.Contents.{content_report};
ghost use Rattle.pst_model.specs.Table.{Table};
ghost use Rattle.pus_header.specs.Commands.{acks_of};
ghost use Rattle.request_laws.specs.Counting.{CanBeCarried, ask_content, one_if, reports_on_table, table_behind};

/// The reports of a request are as many as its acknowledgement flags, its instructions and its
/// failures say: of the content there is a report exactly if its instructions ask for one, and not
/// all of them failed. So the table behind it is the model's, whatever packet asked for it, at
/// whatever time.
pub fn reports_are_counted()
    ensures content { (blocks : ℕ) (items : List Instruction) (table : Table) → CanBeCarried items
        → length (content_report items (carry_out blocks items table).table)
        ≡ one_if (ask_content items
        && nat_lt (length (carry_out blocks items table).failures) (length items)) }
    ensures all { (blocks acks : ℕ) (packet : List ℕ) (items : List Instruction) (table : Table)
        → CanBeCarried items → acks_of packet ≡ acks
        → length (reports_on packet items (carry_out blocks items table))
        ≡ reports_on_table blocks acks items table }
    ensures table { (blocks acks number moment : ℕ) (packet : List ℕ) (items : List Instruction)
        (table : Table) → CanBeCarried items → acks_of packet ≡ acks
        → (answer_carried number moment packet items (carry_out blocks items table)).table
        ≡ table_behind blocks acks items table }
{}
