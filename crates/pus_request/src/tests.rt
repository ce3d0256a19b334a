// Requests written and read back, and each fault.

ghost use Rattle.control_defs.specs.Instructions.{IsInstruction};
ghost use Rattle.pst_model.specs.Items.{HasOctets};

use super::*;
use control_defs::{Instruction, Pattern, StoreKind};
use pus_header::read_tc;
use space_packet::PacketView;

/// A request to disable the storage of stores 1 and 258: count 3, flags 9, source 5.
const REQUEST: [u8; 16] = [
    0x18, 0x0a, 0xc0, 3, 0, 9, 0x29, 0x0f, 2, 0, 5, 2, 0, 1, 1, 2,
];

/// The highest time.
const LATEST: u64 = 0xffff_ffff_ffff;

// Whether octets are a request for exactly these instructions.
fn spells(octets: &[u8], wanted: &[Instruction]) -> bool {
    if octets.len() > 4096 {
        return false;
    }
    let Ok(packet) = PacketView::read(octets) else {
        return false;
    };
    let Ok(command) = read_tc(packet) else {
        return false;
    };
    let Ok(items) = read_request(&command) else {
        return false;
    };
    if items.len() as usize != wanted.len() {
        return false;
    }
    for at in 0..items.len() {
        if items.get(at) != wanted[at as usize] {
            return false;
        }
    }
    true
}

// The fault of the request in octets that are a telecommand.
fn fault_in(octets: &[u8]) -> Option<RequestFault> {
    if octets.len() > 4096 {
        return None;
    }
    let packet = PacketView::read(octets).ok()?;
    let command = read_tc(packet).ok()?;
    read_request(&command).err()
}

#[test]
fn requests_are_written_and_read_back(rt: HostRuntime) {
    let mut octets = [0xaa_u8; 524];
    let items = [Instruction::Disable(1), Instruction::Disable(258)];
    assert_eq!(rt; write_request(3, 9, 5, &items, &mut octets), 16);
    assert!(rt; octets.starts_with(&REQUEST));
    assert!(rt; octets[16..].iter().all(|octet| *octet == 0xaa));
    assert!(rt; spells(&octets[..16], &items));
    let widest = Instruction::Copy {
        from: 7,
        to: 8,
        t1: 0,
        t2: LATEST,
    };
    assert_eq!(rt;
        write_request(16383, 15, 65535, &[widest; 32], &mut octets),
        524
    );
    assert!(rt; spells(&octets, &[widest; 32]));
}

// Whether the request for one instruction has this service type, this message subtype and this
// data, and reads back as the instruction.
fn is_written_as(item: Instruction, service: u8, subtype: u8, body: &[u8]) -> bool
    requires lawful { IsInstruction item }
    requires fits { HasOctets item }
{
    let mut octets = [0xaa_u8; 524];
    let end = write_request(0, 0, 0, &[item], &mut octets) as usize;
    end >= 11
        && end <= octets.len()
        && octets[7] == service
        && octets[8] == subtype
        && octets[11..end].starts_with(body)
        && end == 11 + body.len()
        && spells(&octets[..end], &[item])
}

#[test]
fn patterns_and_reports_are_written_and_read_back(rt: HostRuntime) {
    use Instruction::*;
    let every = ForwardAdd(Pattern::Every);
    assert!(rt; is_written_as(every, 14, 1, &[1, 0, 0, 0, 0, 0]));
    let service = ForwardAdd(Pattern::Service(0, 255));
    assert!(rt; is_written_as(service, 14, 1, &[1, 2, 0, 0, 255, 0]));
    let app = ForwardDelete(Pattern::App(2047));
    assert!(rt; is_written_as(app, 14, 2, &[1, 1, 7, 255, 0, 0]));
    let kind = ForwardDelete(Pattern::Kind(258, 0, 255));
    assert!(rt; is_written_as(kind, 14, 2, &[1, 3, 1, 2, 0, 255]));
    assert!(rt; is_written_as(ForwardReport, 14, 3, &[]));
    assert!(rt; is_written_as(Status, 15, 18, &[]));
    assert!(rt; is_written_as(Configuration, 15, 22, &[]));
    assert!(rt; is_written_as(ReportTypes(513), 15, 5, &[2, 1]));
    let pattern = Pattern::Kind(2047, 3, 25);
    assert!(rt;
        is_written_as(
            AddTypes {
                store: 258,
                pattern
            },
            15,
            3,
            &[1, 1, 2, 3, 7, 255, 3, 25]
        )
    );
    let pattern = Pattern::Every;
    assert!(rt;
        is_written_as(
            DeleteTypes { store: 1, pattern },
            15,
            4,
            &[1, 0, 1, 0, 0, 0, 0, 0]
        )
    );
}

#[test]
fn instructions_of_one_store_are_written_and_read_back(rt: HostRuntime) {
    use Instruction::*;
    assert!(rt; is_written_as(Enable(65535), 15, 1, &[1, 255, 255]));
    assert!(rt; is_written_as(Disable(0), 15, 2, &[1, 0, 0]));
    assert!(rt; is_written_as(Summary(1), 15, 12, &[1, 0, 1]));
    assert!(rt; is_written_as(Resume(1), 15, 15, &[1, 0, 1]));
    assert!(rt; is_written_as(Suspend(1), 15, 16, &[1, 0, 1]));
    assert!(rt; is_written_as(Abort(1), 15, 17, &[1, 0, 1]));
    assert!(rt; is_written_as(Remove(1), 15, 21, &[1, 0, 1]));
    assert!(rt; is_written_as(ToCircular(1), 15, 26, &[1, 0, 1]));
    assert!(rt; is_written_as(ToBounded(1), 15, 27, &[1, 0, 1]));
}

#[test]
fn instructions_with_more_are_written_and_read_back(rt: HostRuntime) {
    use Instruction::*;
    let range = StartRange {
        store: 1,
        t1: 2,
        t2: LATEST,
    };
    assert!(rt;
        is_written_as(
            range,
            15,
            9,
            &[1, 0, 1, 0, 0, 0, 0, 0, 2, 255, 255, 255, 255, 255, 255]
        )
    );
    let up_to = DeleteUpTo {
        store: 1,
        t: LATEST - 1,
    };
    assert!(rt; is_written_as(up_to, 15, 11, &[1, 0, 1, 255, 255, 255, 255, 255, 254]));
    let from = OpenFrom {
        store: 1,
        t: 0x0102_0304_0506,
    };
    assert!(rt; is_written_as(from, 15, 14, &[1, 0, 1, 1, 2, 3, 4, 5, 6]));
    let circular = Create {
        store: 1,
        kind: StoreKind::Circular,
        size: 0xffff_fffe,
        channel: 255,
    };
    assert!(rt; is_written_as(circular, 15, 20, &[1, 0, 1, 0, 255, 255, 255, 254, 255]));
    let bounded = Create {
        store: 2,
        kind: StoreKind::Bounded,
        size: 0,
        channel: 0,
    };
    assert!(rt; is_written_as(bounded, 15, 20, &[1, 0, 2, 1, 0, 0, 0, 0, 0]));
    let copy = Copy {
        from: 1,
        to: 2,
        t1: 3,
        t2: LATEST,
    };
    assert!(rt;
        is_written_as(
            copy,
            15,
            24,
            &[
                1, 0, 1, 0, 2, 0, 0, 0, 0, 0, 3, 255, 255, 255, 255, 255, 255
            ]
        )
    );
    assert!(rt;
        is_written_as(
            Resize {
                store: 1,
                size: 0x0102_0304
            },
            15,
            25,
            &[1, 0, 1, 1, 2, 3, 4]
        )
    );
    assert!(rt;
        is_written_as(
            Channel {
                store: 1,
                channel: 255
            },
            15,
            28,
            &[1, 0, 1, 255]
        )
    );
}

#[test]
fn the_first_fault_is_named(rt: HostRuntime) {
    let malformed = |at| Some(RequestFault::Malformed { at });
    let rows: [(u8, u8, &[u8], Option<RequestFault>); 32] = [
        (15, 15, &[1, 0, 7], None),
        (13, 1, &[1, 0, 7], Some(RequestFault::UnknownService(13))),
        (17, 99, &[], Some(RequestFault::UnknownService(17))),
        (15, 6, &[1, 0, 7], Some(RequestFault::UnknownSubtype(6))),
        (15, 0, &[], Some(RequestFault::UnknownSubtype(0))),
        (14, 4, &[], Some(RequestFault::UnknownSubtype(4))),
        (15, 1, &[], malformed(0)),
        (15, 2, &[0], malformed(0)),
        (15, 16, &[33, 0, 7], malformed(0)),
        (15, 1, &[2, 0, 7, 0], malformed(4)),
        (15, 1, &[1, 0, 7, 0], malformed(3)),
        (15, 5, &[], malformed(0)),
        (15, 5, &[1, 0, 7], malformed(2)),
        (14, 3, &[0], malformed(0)),
        (14, 1, &[1, 3, 7, 255, 1, 1], None),
        (14, 1, &[1, 4, 0, 0, 0, 0], malformed(1)),
        (14, 1, &[1, 1, 8, 0, 0, 0], malformed(2)),
        (14, 1, &[1, 0, 0, 1, 0, 0], malformed(3)),
        (14, 1, &[1, 0, 0, 7, 0, 0], malformed(3)),
        (14, 1, &[1, 0, 1, 7, 0, 0], malformed(2)),
        (14, 1, &[1, 0, 255, 255, 1, 1], malformed(2)),
        (14, 1, &[1, 0, 0, 0, 1, 0], malformed(4)),
        (14, 1, &[1, 0, 0, 0, 0, 1], malformed(5)),
        (14, 2, &[1, 1, 0, 0, 1, 0], malformed(4)),
        (14, 2, &[1, 1, 0, 0, 0, 1], malformed(5)),
        (14, 2, &[1, 2, 0, 0, 1, 1], malformed(5)),
        (14, 2, &[2, 0, 0, 0, 0, 0, 4, 0, 0, 0, 0], malformed(6)),
        (
            15,
            3,
            &[2, 0, 7, 0, 0, 0, 0, 0, 0, 7, 2, 0, 0, 0, 1],
            malformed(14),
        ),
        (
            15,
            3,
            &[2, 0, 7, 0, 0, 0, 0, 0, 0, 7, 0, 0, 1, 0, 0],
            malformed(12),
        ),
        (15, 20, &[1, 0, 7, 1, 0, 0, 0, 0, 0], None),
        (15, 20, &[1, 0, 7, 2, 0, 0, 0, 0, 0], malformed(3)),
        (
            15,
            20,
            &[2, 0, 7, 1, 0, 0, 0, 0, 0, 0, 8, 2, 0, 0, 0, 0, 0],
            malformed(11),
        ),
    ];
    for (service, subtype, body, fault) in rows {
        let mut octets = [0_u8; 28];
        octets[..9].copy_from_slice(&[0x18, 0x0a, 0xc0, 0, 0, 0, 0x20, service, subtype]);
        assert!(rt; body.len() <= 17);
        let end = 11 + body.len();
        octets[5] = end as u8 - 7;
        octets[11..end].copy_from_slice(body);
        assert!(rt; fault_in(&octets[..end]) == fault, "[{service},{subtype}]");
    }
}
