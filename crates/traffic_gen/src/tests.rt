// The text against a plain recomputation.
ghost use Rattle.std.specs.Prelude.{◌≤◌};

use super::*;
use board::Source;
use std::alloc::{AllocError, Global};
use std::process::Abort;
use std::test::Fail;

// The text, recomputed.
#[derive(Drop)]
struct Plain {
    text: Vec<u8>,
    state: u64,
}

impl Plain {
    fn draw(&mut self) -> u64 {
        self.state = self
            .state
            .wrapping_mul(6_364_136_223_846_793_005)
            .wrapping_add(1_442_695_040_888_963_407);
        self.state / 8_589_934_592
    }

    fn push_hex(&mut self, octets: &[u8]) -> Result<(), AllocError> {
        for octet in octets {
            for digit in [octet / 16, octet % 16] {
                self.text.push(b"0123456789abcdef"[digit as usize])?;
            }
        }
        Ok(())
    }

    fn push_time(&mut self, moment: u64) -> Result<(), AllocError> {
        self.push_hex(&moment.to_be_bytes()[2..])
    }

    fn push_timed(&mut self, letter: u8, moment: u64) -> Result<(), AllocError> {
        self.text.push(letter)?;
        self.text.push(b' ')?;
        self.push_time(moment)?;
        self.text.push(b'\n')?;
        Ok(())
    }

    fn push_packet(&mut self, letter: u8, moment: u64, packet: &[u8]) -> Result<(), AllocError> {
        self.text.push(letter)?;
        self.text.push(b' ')?;
        self.push_time(moment)?;
        self.text.push(b' ')?;
        self.push_hex(packet)?;
        self.text.push(b'\n')?;
        Ok(())
    }

    fn push_arrival(&mut self, alloc: Global, number: u64) -> Result<(), AllocError> {
        let (a, b, c) = (self.draw(), self.draw(), self.draw());
        let (service, subtype) = match b % 4 {
            0 | 1 => (3, 25),
            2 => (5, 2),
            _ => (1, 7),
        };
        let length = 60 + c % 1041;
        let moment = 65_536u64.wrapping_add(number.wrapping_mul(64));
        let mut packet = Vec::new(alloc);
        packet.extend_from_slice(&(0x0800 + 100 + (a % 4) as u16).to_be_bytes())?;
        packet.extend_from_slice(&(0xc000 + (number % 16_384) as u16).to_be_bytes())?;
        packet.extend_from_slice(&(length as u16).wrapping_sub(7).to_be_bytes())?;
        packet.extend_from_slice(&[0x20, service, subtype, 0, 0, 0, 0])?;
        packet.extend_from_slice(&moment.to_be_bytes()[2..])?;
        for j in 0..length.wrapping_sub(19) {
            packet.push((number.wrapping_add(j) % 256) as u8)?;
        }
        self.push_packet(b'A', moment, &packet)
    }

    // The retrieval of a store, with this sequence count.
    fn push_range(&mut self, moment: u64, count: u8, store: u8) -> Result<(), AllocError> {
        let mut packet = [
            0x18, 0x0a, 0xc0, count, 0, 19, 0x29, 15, 9, 0, 0, 1, 0, store, 0, 0, 0, 1, 0, 0, 0, 0,
            0, 0, 0, 0,
        ];
        packet[20..].copy_from_slice(&moment.to_be_bytes()[2..]);
        self.push_packet(b'R', moment, &packet)
    }
}

/// The lines of the first requests, as they are written by hand.
const FIRST: &[u8] = b"\
R 000000000001 180ac000001d290f14000003000200000003e802000301000007d003000400000000c804\n\
R 000000000001 180ac001001a290f03000003000201006400000003020065030000040300660502\n\
R 000000000001 180ac002000b290f01000003000200030004\n\
R 000000000001 180ac003000a290e010000010200670500\n\
R 000000000001 180ac0040007290f0f0000010002\n";

fn recomputed(alloc: Global, number: u64, total: u64) -> Result<Vec<u8>, AllocError> {
    let mut plain = Plain {
        text: FIRST.to_vec(alloc)?,
        state: number,
    };
    for at in 0..total {
        plain.push_arrival(alloc, at)?;
        let moment = 65_536u64.wrapping_add(at.wrapping_mul(64));
        if at % 4 == 3 {
            plain.push_timed(b'G', moment)?;
        }
        if at % 64 == 63 {
            plain.push_timed(b'I', moment)?;
        }
        if at == total / 2 {
            plain.push_range(moment, 5, 2)?;
        }
        if at.wrapping_add(1) == total {
            plain.push_range(moment, 6, 3)?;
        }
    }
    for _ in 0..total {
        plain.push_timed(b'G', 65_536u64.wrapping_add(total.wrapping_mul(64)))?;
    }
    Ok(plain.text)
}

// The text of a source, at most so many octets at a time.
fn drained(alloc: Global, source: &mut impl Source, most: usize) -> Result<Vec<u8>, Fail> {
    let mut text = Vec::new(alloc);
    let mut piece = [0; 4096];
    for _ in 0..u32::MAX {
        let count = source.take(&mut piece[..most.min(4096).max(1)])?;
        if count == 0 {
            break;
        }
        text.extend_from_slice(&piece[..count])?;
    }
    Ok(text)
}

// The text of the traffic of a number, taken in pieces of so many octets at most.
fn taken(alloc: Global, number: u64, total: u32, most: usize) -> Result<Vec<u8>, Fail>
    requires some { 1 ≤ total }
    requires few { total ≤ 100000 }
{
    let mut traffic = Traffic::new(number, total);
    drained(alloc, &mut traffic, most)
}

// The text that is taken is the one that is recomputed, however it is cut.
fn agrees(rt: &impl Abort, alloc: Global, number: u64, total: u32) -> Result<(), Fail>
    requires some { 1 ≤ total }
    requires few { total ≤ 100000 }
{
    let wanted = recomputed(alloc, number, u64::from(total))?;
    for most in [1, 100, 4096] {
        let text = taken(alloc, number, total, most)?;
        assert!(rt; text == wanted, "{number} {total} by {most}");
    }
    Ok(())
}

#[test]
fn the_text_is_that_of_a_plain_recomputation(rt: HostRuntime) -> Result<(), Fail> {
    let alloc = rt.alloc();
    agrees(&rt, alloc, 7, 1)?;
    agrees(&rt, alloc, 0, 3)?;
    agrees(&rt, alloc, u64::MAX, 130)?;
    agrees(&rt, alloc, 7, 400)
}

#[test]
fn two_thousand_arrivals_are_4538_lines(rt: HostRuntime) -> Result<(), Fail> {
    let text = taken(rt.alloc(), 7, 2000, 4096)?;
    assert_eq!(rt; text.len(), 2_380_707);
    assert_eq!(rt; text.iter().filter(|octet| **octet == b'\n').count(), 4538);
    Ok(())
}
