// The data of a telecommand as a request.
ghost use Rattle.std.specs.Prelude.{◌≡◌, ◌↔◌, ◌≤◌, ◌*◌, None, Some, IsOk, IfOk, IfErr, length};
ghost use Rattle.pus_header.specs.Commands.{service_of, subtype_of};
ghost use Rattle.pus_header.specs.View.{command_octets};
ghost use Rattle.pst_model.specs.Answers.{data_in};
ghost use Rattle.pst_model.specs.Least.{first_below};
ghost use Rattle.pst_model.specs.Requests.{SpellsRequest, is_wrong_at, items_in, malformed_at, place_of, request_fault_of};
ghost use Rattle.pus_request.specs.Kinds.{row_of};
ghost use Rattle.pus_request.specs.View.{asked, listed};

use crate::items::Items;
use crate::kinds::Kind;
use crate::spelled::wrong_in_item;
use control_defs::{FORWARDING, STORAGE};
use pst_model::RequestFault;
use pus_header::TcView;

/// The most instructions of one request.
const MOST: u8 = 32;

/// The place of the first wrong octet of so many items, where one is wrong.
fn wrong_in_items(kind: Kind, body: &[u8], count: u8) -> Option<usize>
    requires few { count ≤ 32 }
    requires whole { length body.now ≡ place_of (row_of kind) count }
    ensures { result ≡ first_below (is_wrong_at (row_of kind) body.now) (length body.now) }
{
    for number in 0..count {
        let wrong = wrong_in_item(kind, body, kind.place_of(number as usize));
        if wrong.is_some() {
            return wrong;
        }
    }
    None
}

/// The place of the first octet at which the data of a request of this kind is malformed.
fn malformed_at(kind: Kind, body: &[u8]) -> Option<u16>
    ensures { result ≡ malformed_at (row_of kind) body.now }
{
    let count = kind.count_in(body);
    if count == 0 || count > MOST {
        return Some(0);
    }
    let asked = kind.place_of(count as usize);
    if body.len() != asked {
        return Some(body.len().min(asked) as u16);
    }
    Some(wrong_in_items(kind, body, count)? as u16)
}

/// The instructions that a telecommand asks for, in their order, or the first fault of its service,
/// its subtype or its data (ECSS-E-ST-70-41C, 8.14.2 and 8.15.2).
pub fn read_request<'a>(tc: &TcView<'a>) -> Result<Items<'a>, RequestFault>
    ensures request { let octets = command_octets tc.now in
        IsOk result ↔ (request_fault_of (service_of octets) (subtype_of octets) (data_in octets) ≡ None) }
    ensures items { let octets = command_octets tc.now in
        IfOk result (λ items. listed items ≡ items_in (service_of octets) (subtype_of octets) (data_in octets)) }
    ensures kind { let octets = command_octets tc.now in
        IfOk result (λ items. asked items ≡ (service_of octets, subtype_of octets)) }
    ensures spelled { let octets = command_octets tc.now in
        IfOk result (λ items. SpellsRequest (service_of octets) (subtype_of octets) (data_in octets) (listed items)) }
    ensures fault { let octets = command_octets tc.now in
        IfErr result (λ fault. request_fault_of (service_of octets) (subtype_of octets) (data_in octets) ≡ Some fault) }
{
    let service = tc.service();
    if service != FORWARDING && service != STORAGE {
        return Err(RequestFault::UnknownService(service));
    }
    let subtype = tc.subtype();
    let Some(kind) = Kind::of(service, subtype) else {
        return Err(RequestFault::UnknownSubtype(subtype));
    };
    let body = tc.body();
    if let Some(at) = malformed_at(kind, body) {
        return Err(RequestFault::Malformed { at });
    }
    Ok(Items::new(kind, body))
}
