// The judgements that come before a request's instructions.
ghost use Rattle.std.specs.Prelude.{◌≡◌, None, Some, false, IfOk, MatchResult};
ghost use Rattle.space_packet.specs.View.{octets_of};
ghost use Rattle.pus_header.specs.Commands.{acks_of, service_of, subtype_of};
ghost use Rattle.pus_request.specs.View.{asked, listed};
ghost use Rattle.pst_model.specs.Answers.{data_in, header_refusal, is_pending, refusal_of, request_refusal};
ghost use Rattle.pst_model.specs.Requests.{items_in};
ghost use Rattle.request_laws.specs.Counting.{CanBeCarried};

use control_defs::STORAGE;
use pst_model::{RequestFault, Verdict};
use pus_header::{APID, TcFault, read_tc};
use pus_request::{Items, read_request};
use space_packet::PacketView;

// The codes of the judgements, in their order.
const WRONG_APID: u8 = 1;

const BAD_HEADER: u8 = 2;

const UNKNOWN_SERVICE: u8 = 3;

const UNKNOWN_SUBTYPE: u8 = 4;

const MALFORMED: u8 = 5;

/// A request that no judgement refuses.
#[derive(Clone, Copy)]
pub struct Request<'a> {
    /// Its acknowledgement flags.
    pub acks: u8,
    /// Its instructions.
    pub items: Items<'a>,
}

fn header_refusal(fault: TcFault) -> Verdict
    ensures { result ≡ header_refusal fault }
{
    let detail = match fault {
        TcFault::NotCommand => 0,
        TcFault::NoHeader => 1,
        TcFault::WrongVersion(version) => 256 + u16::from(version),
    };
    Verdict::Refused {
        code: BAD_HEADER,
        detail,
    }
}

fn request_refusal(fault: RequestFault) -> Verdict
    ensures { result ≡ request_refusal fault }
{
    match fault {
        RequestFault::UnknownService(service) => Verdict::Refused {
            code: UNKNOWN_SERVICE,
            detail: u16::from(service),
        },
        RequestFault::UnknownSubtype(subtype) => Verdict::Refused {
            code: UNKNOWN_SUBTYPE,
            detail: u16::from(subtype),
        },
        RequestFault::Malformed { at } => Verdict::Refused {
            code: MALFORMED,
            detail: at,
        },
    }
}

// Whether requests of this service and subtype are known and not carried out yet.
fn is_pending(service: u8, subtype: u8) -> bool
    ensures { result ≡ is_pending service subtype }
{
    service == STORAGE && matches!(subtype, 20 | 24 | 25)
}

/// The request that a packet is, or the first judgement that refuses it.
pub fn judge<'a>(packet: PacketView<'a>) -> Result<Request<'a>, Verdict>
    ensures judged { let octets = octets_of packet.entry in MatchResult result
        (λ request. (refusal_of octets ≡ None) × (request.acks ≡ acks_of octets)
        × (listed request.items ≡ items_in (service_of octets) (subtype_of octets) (data_in octets))
        × (is_pending (asked request.items).0 (asked request.items).1 ≡ false))
        (λ verdict. refusal_of octets ≡ Some verdict) }
    ensures carried { IfOk result (λ request. CanBeCarried (listed request.items)) }
{
    if packet.apid() != APID {
        return Err(Verdict::Refused {
            code: WRONG_APID,
            detail: packet.apid(),
        });
    }
    let command = match read_tc(packet) {
        Ok(command) => command,
        Err(fault) => return Err(header_refusal(fault)),
    };
    if is_pending(command.service(), command.subtype()) {
        return Err(request_refusal(RequestFault::UnknownSubtype(command.subtype())));
    }
    match read_request(&command) {
        Ok(items) => Ok(Request {
            acks: command.acks(),
            items,
        }),
        Err(fault) => Err(request_refusal(fault)),
    }
}
