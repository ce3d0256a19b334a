// Refusals of instructions on one store, by stores written out by hand.

use super::*;
use crate::stores_made::{all_answer, copy, resize, set_channel, start_range};
use control_defs::Instruction::*;
use control_defs::Pattern::Every;

#[test]
fn a_store_has_to_stand(rt: HostRuntime) {
    let (store, pattern) = (7, Every);
    let (t1, t2) = (2, 1);
    let unknown = Err(Refusal::UnknownStore);
    let cases = [
        (Enable(store), unknown),
        (Disable(store), unknown),
        (AddTypes { store, pattern }, unknown),
        (DeleteTypes { store, pattern }, unknown),
        (ReportTypes(store), unknown),
        (start_range(store, t1, t2), unknown),
        (DeleteUpTo { store, t: 1 }, unknown),
        (Summary(store), unknown),
        (OpenFrom { store, t: 1 }, unknown),
        (Resume(store), unknown),
        (Suspend(store), unknown),
        (Abort(store), unknown),
        (Remove(store), unknown),
        (copy(store, 1, t1, t2), unknown),
        (copy(5, store, t1, t2), unknown),
        (resize(store, 0), unknown),
        (ToCircular(store), unknown),
        (ToBounded(store), unknown),
        (set_channel(store, 0), unknown),
    ];
    assert!(rt; all_answer(rt.alloc(), 64, &cases));
}

#[test]
fn questions_are_not_refused(rt: HostRuntime) {
    let cases = [
        (ForwardReport, Ok(())),
        (Status, Ok(())),
        (Configuration, Ok(())),
        (ReportTypes(5), Ok(())),
        (Summary(5), Ok(())),
    ];
    assert!(rt; all_answer(rt.alloc(), 26, &cases));
}

#[test]
fn what_is_on_is_not_set_again(rt: HostRuntime) {
    let already = Err(Refusal::AlreadySo);
    let cases = [
        (Enable(1), Ok(())),
        (Enable(2), already),
        (Disable(2), Ok(())),
        (Disable(1), already),
        (Resume(1), Ok(())),
        (Resume(3), already),
        (Suspend(3), Ok(())),
        (Suspend(1), already),
        (Abort(4), Ok(())),
        (Abort(3), already),
    ];
    assert!(rt; all_answer(rt.alloc(), 64, &cases));
}

#[test]
fn retrieval_keeps_its_packets(rt: HostRuntime) {
    let (t, t1, t2) = (1, 1, 2);
    let open_on = Err(Refusal::OpenOn);
    let range_on = Err(Refusal::RangeOn);
    let cases = [
        (start_range(3, t1, t2), Ok(())),
        (start_range(3, 2, t2), Ok(())),
        (start_range(4, t1, t2), range_on),
        (start_range(4, 3, t2), Err(Refusal::Reversed)),
        (DeleteUpTo { store: 2, t }, Ok(())),
        (DeleteUpTo { store: 3, t }, open_on),
        (DeleteUpTo { store: 4, t }, range_on),
        (DeleteUpTo { store: 5, t }, open_on),
        (OpenFrom { store: 4, t }, Ok(())),
        (OpenFrom { store: 5, t }, open_on),
    ];
    assert!(rt; all_answer(rt.alloc(), 64, &cases));
}

#[test]
fn stores_are_changed_at_rest(rt: HostRuntime) {
    let storage_on = Err(Refusal::StorageOn);
    let open_on = Err(Refusal::OpenOn);
    let range_on = Err(Refusal::RangeOn);
    let bad_channel = Err(Refusal::BadChannel);
    let already = Err(Refusal::AlreadySo);
    let cases = [
        (Remove(1), Ok(())),
        (Remove(2), storage_on),
        (Remove(3), open_on),
        (Remove(4), range_on),
        (Remove(5), storage_on),
        (ToBounded(1), Ok(())),
        (ToBounded(2), storage_on),
        (ToBounded(5), storage_on),
        (ToBounded(6), already),
        (ToCircular(1), already),
        (ToCircular(3), open_on),
        (ToCircular(4), range_on),
        (ToCircular(6), Ok(())),
        (set_channel(2, 7), Ok(())),
        (set_channel(5, 0), bad_channel),
        (set_channel(5, 8), bad_channel),
        (set_channel(5, 1), open_on),
        (set_channel(4, 1), range_on),
    ];
    assert!(rt; all_answer(rt.alloc(), 64, &cases));
}
