// What one line says.
ghost use Rattle.std.specs.Prelude.{◌≡◌, ◌≤◌, ◌<◌, ◌*◌, ◌^◌, ℕ, List, length, take, Ok, Err, None, Some, IfOk, IfSome, MatchResult};
ghost use Rattle.byteorder.specs.Endian.{big_number};
ghost use Rattle.space_packet.specs.Packet.{IsPacket};
ghost use Rattle.pst_model.specs.Forms.{moment_in, packet_in, reading_of};
ghost use Rattle.pst_model.specs.Command.{Command};
ghost use Rattle.session_text.specs.Fronts.{front_reading, letter_reading, places_in};
ghost use Rattle.session_text.specs.Read.{IsHeld, command_in, said_in};

use crate::trim::{is_blank, trim_end, trim_front, without_return};
use byteorder::{BigEndian, ByteOrder};
use pst_model::LineFault;
use space_packet::PacketView;

/// What a line says, without the octets of its packet.
#[derive(Clone, Copy)]
pub enum Form {
    Arrival { moment: u64, length: usize },
    Request { moment: u64, length: usize },
    Grant { moment: u64 },
    Idle { moment: u64 },
}

fn moment_of(octets: &[u8]) -> u64
    requires { length octets.now ≡ 6 }
    ensures value { result ≡ big_number 6 octets.now }
    ensures fits { result < 2 ^ 48 }
{
    BigEndian::read_u48(octets)
}

fn read_moment(digits: &[u8]) -> Option<u64>
    ensures value { result ≡ moment_in digits.now }
    ensures fits { IfSome result (λ moment. moment < 2 ^ 48) }
{
    let mut octets = [0u8; 6];
    match hex::decode_to_slice(digits, &mut octets) {
        Ok(()) => Some(moment_of(&octets)),
        Err(_) => None,
    }
}

// Puts the packet that the digits spell at the front of `packet`, and answers its length.
fn read_packet(digits: &[u8], packet: &mut [u8]) -> Result<usize, LineFault>
    requires line { length digits.now ≤ 131200 }
    requires room { length digits.now ≤ 2 * length packet.old }
    ensures reading { MatchResult result (λ count. packet_in digits.now ≡ Ok (take count packet.new)) (λ why. packet_in digits.now ≡ Err why) }
    ensures packet { IfOk result (λ count. (count ≤ length packet.new) × IsPacket (take count packet.new)) }
{
    let count = digits.len() / 2;
    if count == 0 {
        return Err(LineFault::Form);
    }
    let octets = &mut packet[..count];
    if hex::decode_to_slice(digits, octets).is_err() {
        return Err(LineFault::Form);
    }
    match PacketView::read(octets) {
        Ok(_) => Ok(count),
        Err(fault) => Err(LineFault::Packet(fault)),
    }
}

// Reads the moment and the packet of a line, behind its letter. The packet goes to the front of `packet`,
// and its length is answered.
fn read_places(rest: &[u8], packet: &mut [u8]) -> Result<(u64, usize), LineFault>
    requires line { length rest.now ≤ 131200 }
    requires room { length rest.now ≤ 2 * length packet.old }
    ensures reading { MatchResult result
        (λ places. (make : ℕ → List ℕ → Command) → places_in make rest.now ≡ Ok (Some (make places.0 (take places.1 packet.new))))
        (λ why. (make : ℕ → List ℕ → Command) → places_in make rest.now ≡ Err why) }
    ensures moment { IfOk result (λ places. places.0 < 2 ^ 48) }
    ensures held { IfOk result (λ places. (places.1 ≤ length packet.new) × IsPacket (take places.1 packet.new)) }
{
    if rest.len() < 13 || !is_blank(rest[12]) {
        return Err(LineFault::Form);
    }
    let Some(moment) = read_moment(&rest[..12]) else {
        return Err(LineFault::Form);
    };
    let length = read_packet(trim_front(&rest[13..]), packet)?;
    Ok((moment, length))
}

// Reads a line of this letter by what stands behind it and its blanks.
fn read_by_letter(letter: u8, rest: &[u8], packet: &mut [u8]) -> Result<Form, LineFault>
    requires line { length rest.now ≤ 131200 }
    requires room { length rest.now ≤ 2 * length packet.old }
    ensures reading { MatchResult result
        (λ form. letter_reading letter rest.now ≡ Ok (Some (command_in packet.new form)))
        (λ why. letter_reading letter rest.now ≡ Err why) }
    ensures held { IfOk result (IsHeld packet.new) }
{
    match letter {
        b'A' => {
            let (moment, length) = read_places(rest, packet)?;
            Ok(Form::Arrival { moment, length })
        }
        b'R' => {
            let (moment, length) = read_places(rest, packet)?;
            Ok(Form::Request { moment, length })
        }
        b'G' => match read_moment(rest) {
            Some(moment) => Ok(Form::Grant { moment }),
            None => Err(LineFault::Form),
        },
        b'I' => match read_moment(rest) {
            Some(moment) => Ok(Form::Idle { moment }),
            None => Err(LineFault::Form),
        },
        _ => Err(LineFault::Form),
    }
}

// Reads a line that neither begins nor ends with a blank.
fn read_front(line: &[u8], packet: &mut [u8]) -> Result<Option<Form>, LineFault>
    requires line { length line.now ≤ 131200 }
    requires room { length line.now ≤ 2 * length packet.old }
    ensures reading { MatchResult result
        (λ said. front_reading line.now ≡ Ok (said_in packet.new said))
        (λ why. front_reading line.now ≡ Err why) }
    ensures held { IfOk result (λ said. IfSome said (IsHeld packet.new)) }
{
    if line.is_empty() || line[0] == b'#' {
        return Ok(None);
    }
    if line.len() < 2 || !is_blank(line[1]) {
        return Err(LineFault::Form);
    }
    let form = read_by_letter(line[0], trim_front(&line[1..]), packet)?;
    Ok(Some(form))
}

/// Reads a line of at most 131,200 octets without its LF, and puts the octets of its packet at the
/// front of `packet`. None is a line that says nothing.
pub fn read_form(line: &[u8], packet: &mut [u8]) -> Result<Option<Form>, LineFault>
    requires line { length line.now ≤ 131200 }
    requires room { length line.now ≤ 2 * length packet.old }
    ensures reading { MatchResult result
        (λ said. reading_of line.now ≡ Ok (said_in packet.new said))
        (λ why. reading_of line.now ≡ Err why) }
    ensures held { IfOk result (λ said. IfSome said (IsHeld packet.new)) }
{
    read_front(trim_front(trim_end(without_return(line))), packet)
}
