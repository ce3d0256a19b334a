// Laws on the text of a session.
ghost use Rattle.std.specs.Prelude.{◌≡◌, ◌↔◌, ◌⊎◌, ◌<◌, ◌≤◌, ℕ, List, Ok, Err, None, Some, length};
ghost use Rattle.space_packet.specs.Packet.{fault_of};
ghost use Rattle.space_packet.specs.declared.fault.PacketFault.{PacketFault};
ghost use Rattle.pst_model.specs.declared.faults.LineFault.TheVariants.{LongLine, Packet, TextLimit};
ghost use Rattle.pst_model.specs.Command.{Command};
ghost use Rattle.pst_model.specs.Fields.{AreFields, fields_of};
ghost use Rattle.pst_model.specs.Forms.{HasPacketForm, IsSkipped, Spells, reading_of};
ghost use Rattle.pst_model.specs.Text.{AreLines, IsCut, Line, joined, line_reading, lines_in, size_of};

/// A line has the fields that stand between its runs of spaces and tabs, and no others.
pub fn fields_of_a_line()
    ensures { (line : List ℕ) (fields : List (List ℕ)) → (fields_of line ≡ fields)
        ↔ AreFields fields line }
{}

/// A line says the command of which it is a written form, nothing where it has no field or is a
/// comment, or the fault of its packet where it has the form of an arrival or of a request.
pub fn written_forms()
    ensures spelled { (line : List ℕ) (command : Command) → (reading_of line ≡ Ok (Some command))
        ↔ Spells line command }
    ensures skipped { (line : List ℕ) → (reading_of line ≡ Ok None) ↔ IsSkipped line }
    ensures faulty { (line : List ℕ) (fault : PacketFault) → (reading_of line ≡ Err (Packet fault))
        ↔ ((moment : ℕ) × (octets : List ℕ) × (HasPacketForm 65 line moment octets ⊎ HasPacketForm 82 line moment octets) × (fault_of octets ≡ Some fault)) }
{}

/// A line is judged by the limit of the text first, then by its length, and then by its form.
pub fn limits_of_a_line()
    ensures text { (limit place : ℕ) (line : Line) → 0 < size_of line
        → (line_reading limit place line ≡ Err TextLimit) ↔ IsCut limit place line }
    ensures long { (limit place : ℕ) (line : Line) → (line_reading limit place line ≡ Err LongLine)
        ↔ (¬ (IsCut limit place line) × (131200 < length line.octets)) }
    ensures form { (limit place : ℕ) (line : Line) → 0 < size_of line → ¬ (IsCut limit place line)
        → length line.octets ≤ 131200
        → line_reading limit place line ≡ reading_of line.octets }
{}

/// A text is its lines, joined, in the one way in which it can be split behind each LF.
pub fn lines_of_text()
    ensures text { (text : List ℕ) → joined (lines_in text) ≡ text }
    ensures lines { (text : List ℕ) → AreLines (lines_in text) }
    ensures only { (lines : List Line) → AreLines lines → lines_in (joined lines) ≡ lines }
{}
