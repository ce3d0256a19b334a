// Reads a session text line by line.
ghost use Rattle.std.specs.Prelude.{◌≡◌, ◌≤◌, ◌<◌, ◌+◌, ◌-◌, ◌^◌, if◌then◌else◌, [], length, false, true, IsTrue, IfOk, IfSome, OnOk, OnErr, Ok, Err, MatchResult};
ghost use Rattle.std.specs.Borrow.{sem};
ghost use Rattle.board.specs.Counts.{Rose};
ghost use Rattle.pst_model.specs.declared.faults.LineFault.{LineFault};
ghost use Rattle.session_text.specs.Passing.{passed_by};

use crate::command::Command;
use crate::fault::LineEnd;
use crate::find::{Found, LONGEST, find_line};
use crate::form::{Form, read_form};
use crate::held::Held;
use board::Source;
use pst_model::LineFault;
use space_packet::PacketView;
use std::alloc::{AllocError, Global};

/// The octets of a line, its LF with them, that the limit of the text is looked for among.
const JUDGED: u64 = 131_201;

/// The most octets that the digits of a line spell.
const LARGEST: usize = 65_600;

/// A session text, read line by line.
#[derive(Drop)]
pub struct Lines {
    limit: u64,
    place: u64,
    number: u64,
    held: Held,
    packet: Vec<u8>,
    closed: bool,
    live: bool,
    ghost bounded: { limit < 2 ^ 63 },
    ghost within: { place ≤ limit },
    ghost counted: { number ≤ place },
    ghost room: { length packet.items ≡ 65600 },
}

/// What a line comes to that is not bad.
pub enum Passed {
    // It says a command.
    Said(Form),
    // It says nothing.
    Nothing,
    // There is none.
    End,
}

// The octets of a line with its LF, where it has one.
fn size_of(count: usize, ended: bool) -> usize
    requires { count ≤ 262144 }
    ensures { result ≡ count + (if ended then 1 else 0) }
{
    if ended { count + 1 } else { count }
}

fn passed_of(said: Option<Form>) -> Passed
    ensures { result ≡ passed_by said }
{
    match said {
        Some(form) => Passed::Said(form),
        None => Passed::Nothing,
    }
}

impl Lines {
    ghost use Rattle.pst_model.specs.Text.{line_reading};
    ghost use Rattle.session_text.specs.Lending.{IsPassed, RestsMoved, line_turn, reader_of, turn_by, turn_of};
    ghost use Rattle.session_text.specs.Progress.{HasRead};
    ghost use Rattle.session_text.specs.Read.{IsHeld, command_in, said_in};
    ghost use Rattle.session_text.specs.Reader.{IsDecided, moved_on, past_fault, reading_held};
    ghost use Rattle.session_text.specs.Shown.{command_of, moment_of};
    ghost use Rattle.session_text.specs.Turns.{Asks, MovesOn, OnNothing};
    ghost use Rattle.session_text.specs.Turns.{OnFailed as OnSource, UnlessFailed as UnlessSource};

    /// A reader of a text of which at most so many octets are read, below 2^63.
    pub fn new(alloc: Global, limit: u64) -> Result<Lines, AllocError>
        requires { limit < 2 ^ 63 }
        ensures { IfOk result (λ lines. reader_of lines ≡ record { limit = limit; place = 0; number = 0; pending = []; closed = false; live = true }) }
    {
        Ok(Lines {
            limit,
            place: 0,
            number: 0,
            held: Held::new(alloc)?,
            packet: vec![in alloc; 0; LARGEST]?,
            closed: false,
            live: true,
        })
    }

    /// Whether there was no error so far.
    pub fn is_live(&self) -> bool
        ensures { result ≡ (reader_of self.now).live }
    {
        self.live
    }

    /// The next command of the text, or None where the text ended. Lines that say nothing are passed.
    /// Nothing is taken from the source where what was taken before tells what comes: a whole line that
    /// is no blank one or comment, or the begin of one that is too long. Once a take gave no octet the
    /// source is not asked again. After an error this is not called again.
    pub fn next_line<'a, S: Source>(
        &'a mut self,
        source: &mut S,
    ) -> Result<Option<Command<'a>>, LineEnd>
        requires { IsTrue (reader_of self.old).live }
        ensures* moves { sem 𝓛 (RestsMoved self.entry (S.means.tells source.old) (S.means.left source.old) (S.means.left source.new) (S.means.takes source.old) (S.means.takes source.new) result) }
        ensures moment { IfOk result (λ command. IfSome command (λ c. moment_of c < 2 ^ 48)) }
        ensures still { IsDecided (reader_of self.old) → source.new ≡ source.old }
        ensures same { S.means.tells source.new ≡ S.means.tells source.old }
        ensures faults { S.means.faults source.old ≤ S.means.faults source.new }
        ensures no_fault { UnlessSource (turn_of result) (S.means.faults source.new ≡ S.means.faults source.old) }
        ensures cause { OnSource (turn_of result) (Rose (S.means.faults source.old) (S.means.faults source.new)) }
    {
        let Some(form) = self.advance(source)? else {
            return Ok(None);
        };
        Ok(Some(self.command(form)))
    }

    // Moves on behind the next line that says a command, and keeps the octets of its packet.
    fn advance<S: Source>(&mut self, source: &mut S) -> Result<Option<Form>, LineEnd>
        requires { IsTrue (reader_of self.old).live }
        ensures moves { MovesOn (reader_of self.old) (reader_of self.new) (S.means.tells source.old) (S.means.left source.old) (S.means.left source.new) (turn_by (command_in self.new.packet.items) result) }
        ensures asks { Asks (reader_of self.old) (reader_of self.new) (S.means.tells source.old) (S.means.left source.old) (S.means.left source.new) (S.means.takes source.old) (S.means.takes source.new) }
        ensures held { IfOk result (λ form. IfSome form (IsHeld self.new.packet.items)) }
        ensures still { IsDecided (reader_of self.old) → source.new ≡ source.old }
        ensures same { S.means.tells source.new ≡ S.means.tells source.old }
        ensures faults { S.means.faults source.old ≤ S.means.faults source.new }
        ensures no_fault { UnlessSource (turn_by (command_in self.new.packet.items) result) (S.means.faults source.new ≡ S.means.faults source.old) }
        ensures cause { OnSource (turn_by (command_in self.new.packet.items) result) (Rose (S.means.faults source.old) (S.means.faults source.new)) }
    {
        'lines: loop {
            match self.pass_line(source) {
                Ok(Passed::Said(form)) => return Ok(Some(form)),
                Ok(Passed::Nothing) => {}
                Ok(Passed::End) => return Ok(None),
                Err(end) => return Err(end),
            }
        }
    }

    // Moves on behind the next line, and keeps the octets of its packet.
    fn pass_line<S: Source>(&mut self, source: &mut S) -> Result<Passed, LineEnd>
        requires { IsTrue (reader_of self.old).live }
        ensures moves { MovesOn (reader_of self.old) (reader_of self.new) (S.means.tells source.old) (S.means.left source.old) (S.means.left source.new) (line_turn self.new.packet.items result) }
        ensures asks { Asks (reader_of self.old) (reader_of self.new) (S.means.tells source.old) (S.means.left source.old) (S.means.left source.new) (S.means.takes source.old) (S.means.takes source.new) }
        ensures held { IfOk result (IsPassed self.new.packet.items) }
        ensures still { IsDecided (reader_of self.old) → source.new ≡ source.old }
        ensures decided { IsDecided (reader_of self.old) → OnNothing (line_turn self.new.packet.items result) (IsDecided (reader_of self.new)) }
        ensures same { S.means.tells source.new ≡ S.means.tells source.old }
        ensures faults { S.means.faults source.old ≤ S.means.faults source.new }
        ensures no_fault { UnlessSource (line_turn self.new.packet.items result) (S.means.faults source.new ≡ S.means.faults source.old) }
        ensures cause { OnSource (line_turn self.new.packet.items result) (Rose (S.means.faults source.old) (S.means.faults source.new)) }
    {
        if self.closed {
            return Ok(Passed::End);
        }
        match find_line(&mut self.held, source, self.limit - self.place) {
            Found::Line(length) => match self.pass_read(length, true) {
                Ok(said) => Ok(passed_of(said)),
                Err(end) => Err(end),
            },
            Found::Last(length) => match self.pass_read(length, false) {
                Ok(said) => {
                    self.closed = true;
                    Ok(passed_of(said))
                }
                Err(end) => Err(end),
            },
            Found::Past => Err(self.end_past()),
            Found::End => {
                self.closed = true;
                Ok(Passed::End)
            }
            Found::Failed => {
                self.live = false;
                Err(LineEnd::Source)
            }
        }
    }

    // Ends the reading at the line that comes next.
    fn end_at(&mut self, why: LineFault) -> LineEnd
        ensures bad { result ≡ LineEnd.Bad ((reader_of self.old).number + 1) why }
        ensures ended { reader_of self.new ≡ record (reader_of self.old) { live = false } }
    {
        self.live = false;
        LineEnd::Bad {
            line: self.number + 1,
            why,
        }
    }

    // Ends the reading at a line that is too long, whatever comes behind it.
    fn end_past(&mut self) -> LineEnd
        ensures bad { result ≡ LineEnd.Bad ((reader_of self.old).number + 1) (past_fault ((reader_of self.old).limit - (reader_of self.old).place)) }
        ensures ended { reader_of self.new ≡ record (reader_of self.old) { live = false } }
    {
        if self.limit - self.place < JUDGED {
            self.end_at(LineFault::TextLimit)
        } else {
            self.end_at(LineFault::LongLine)
        }
    }

    // Reads the line that is held in front, of so many octets and an LF or none, and moves on behind it or
    // ends the reading at it.
    fn pass_read(&mut self, count: usize, ended: bool) -> Result<Option<Form>, LineEnd>
        requires there { count + (if ended then 1 else 0) ≤ length self.old.held }
        requires some { 1 ≤ count + (if ended then 1 else 0) }
        ensures reading { MatchResult result
            (λ said. reading_held (reader_of self.old) count ended ≡ Ok (said_in self.new.packet.items said))
            (λ end. (why : LineFault) × (end ≡ LineEnd.Bad ((reader_of self.old).number + 1) why) × (reading_held (reader_of self.old) count ended ≡ Err why)) }
        ensures held { IfOk result (λ said. IfSome said (IsHeld self.new.packet.items)) }
        ensures moved { OnOk result (reader_of self.new ≡ moved_on (reader_of self.old) (count + (if ended then 1 else 0))) }
        ensures err { OnErr result (reader_of self.new ≡ record (reader_of self.old) { live = false }) }
    {
        match self.read_line(count, ended) {
            Ok(said) => Ok(said),
            Err(why) => Err(self.end_at(why)),
        }
    }

    // Reads the line that is held in front, and moves on behind it.
    fn read_line(&mut self, count: usize, ended: bool) -> Result<Option<Form>, LineFault>
        requires there { count + (if ended then 1 else 0) ≤ length self.old.held }
        requires some { 1 ≤ count + (if ended then 1 else 0) }
        ensures reading { MatchResult result
            (λ said. reading_held (reader_of self.old) count ended ≡ Ok (said_in self.new.packet.items said))
            (λ why. reading_held (reader_of self.old) count ended ≡ Err why) }
        ensures held { IfOk result (λ said. IfSome said (IsHeld self.new.packet.items)) }
        ensures moved { OnOk result (reader_of self.new ≡ moved_on (reader_of self.old) (count + (if ended then 1 else 0))) }
        ensures err { OnErr result (reader_of self.new ≡ reader_of self.old) }
    {
        let octets = self.held.octets();
        let size = size_of(count, ended);
        let room = self.limit - self.place;
        if room < size as u64 && room < JUDGED {
            return Err(LineFault::TextLimit);
        }
        if count > LONGEST {
            return Err(LineFault::LongLine);
        }
        let said = read_form(&octets[..count], &mut self.packet)?;
        self.held.skip(size);
        self.place += size as u64;
        self.number += 1;
        Ok(said)
    }

    // The command of the form, whose packet is kept.
    fn command(&self, form: Form) -> Command<'_>
        requires { IsHeld self.now.packet.items form }
        ensures shown { command_of result ≡ command_in self.now.packet.items form }
        ensures moment { moment_of result < 2 ^ 48 }
    {
        match form {
            Form::Arrival { moment, length } => Command::Arrival {
                moment,
                packet: PacketView::new(&self.packet[..length]),
            },
            Form::Request { moment, length } => Command::Request {
                moment,
                packet: PacketView::new(&self.packet[..length]),
            },
            Form::Grant { moment } => Command::Grant { moment },
            Form::Idle { moment } => Command::Idle { moment },
        }
    }
}
