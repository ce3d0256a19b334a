// Laws on requests as octets.
ghost use Rattle.std.specs.Prelude.{◌≡◌, ◌↔◌, ◌<◌, ◌++◌, ℕ, List, [], All, None};
ghost use Rattle.control_defs.specs.declared.instructions.Instruction.{Instruction};
ghost use Rattle.pst_model.specs.Requests.{AreAsked, SpellsRequest, items_in, request_fault_of, request_packet};
ghost use Rattle.pst_model.specs.ReadBack.{ReadsBack};

/// Data has no fault as that of a request exactly where it spells the instructions that are read.
pub fn request_or_fault()
    ensures { (service subtype : ℕ) (body : List ℕ) → All (λ (octet : ℕ). octet < 256) body
        → (request_fault_of service subtype body ≡ None)
        ↔ SpellsRequest service subtype body (items_in service subtype body) }
{}

/// Data that spells instructions has no fault, and spells those alone that are read.
pub fn one_reading()
    ensures items { (service subtype : ℕ) (body : List ℕ) (items : List Instruction)
        → SpellsRequest service subtype body items → items ≡ items_in service subtype body }
    ensures fault { (service subtype : ℕ) (body : List ℕ) (items : List Instruction)
        → SpellsRequest service subtype body items → request_fault_of service subtype body ≡ None }
{}

/// The packet of a request reads back as what it was made of.
pub fn written_requests_read_back()
    ensures { (count acks service subtype source : ℕ) (items : List Instruction) → count < 16384
        → acks < 16 → source < 65536
        → AreAsked service subtype items
        → ReadsBack (request_packet count acks service subtype source items)
        count acks service subtype source items }
{}

/// No data that spells instructions is the front of longer data that does.
pub fn no_spelling_begins_another()
    ensures { (service subtype : ℕ) (front more : List ℕ) (items all : List Instruction)
        → SpellsRequest service subtype front items
        → SpellsRequest service subtype (front ++ more) all → more ≡ [] }
{}
