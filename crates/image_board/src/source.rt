// A reader as the source of a session text.
ghost use Rattle.std.specs.Prelude.{◌≡◌, ◌≤◌, ◌<◌, ◌+◌, ◌++◌, ◌↔◌, [], length, take, IfOk, IfSome, IfNone, IsTrue, OnErr, OnOk};
ghost use Rattle.std.specs.Io.KnownBytes.{Consumes, IsAtEnd, Keeps};
ghost use Rattle.board.specs.Counts.{Rose};
ghost use Rattle.image_board.specs.Reading.{octets_left};

use crate::reader::Reader;
use board::{Failed, Source};
use std::io::{ErrorKind, Read};

/// A reader as a source. It tells what is left if the reader's octets are observable.
#[derive(Drop)]
pub struct StdSource<R: Reader + Drop> {
    input: R,
    faults: u64,
    takes: u64,
}

impl<R: Reader + Drop> StdSource<R> {
    /// The source that reads from `input`, of which it has asked nothing.
    pub fn new(input: R) -> StdSource<R>
        ensures input { result.input ≡ input }
        ensures faults { result.faults ≡ 0 }
        ensures takes { result.takes ≡ 0 }
    {
        StdSource {
            input,
            faults: 0,
            takes: 0,
        }
    }
}

// Reads what there is, again where a signal came before any octet did. None says that it failed.
fn read_some<R: Read>(input: &mut R, into: &mut [u8]) -> Option<usize>
    ensures count { IfSome result (λ count. count ≤ length into.old) }
    ensures read { IfSome result (λ count.
        Consumes (R.remaining input.old) (R.remaining input.new) (take count into.new)) }
    ensures end { IfSome result (λ count. count ≡ 0 → 0 < length into.old
        → IsAtEnd (R.remaining input.new)) }
    ensures kept { IfNone result (Keeps (R.remaining input.old) (R.remaining input.new)) }
{
    for _ in 0..u64::MAX {
        match input.read(into) {
            Ok(count) => return Some(count),
            Err(error) if error.kind() == ErrorKind::Interrupted => {}
            Err(_) => return None,
        }
    }
    None
}

impl<R: Reader + Drop> Source for StdSource<R> {
    ghost means = { record {
      tells = λ source. R.tells;
      left = λ source. octets_left (R.remaining source.input);
      faults = λ source. source.faults;
      takes = λ source. source.takes;
    } };

    fn take(&mut self, into: &mut [u8]) -> Result<usize, Failed>
        requires { 0 < length into.old }
        ensures count { IfOk result (λ count. count ≤ length into.old) }
        ensures moved { IfOk result (λ count. IsTrue R.tells → octets_left (R.remaining self.old.input)
            ≡ take count into.new ++ octets_left (R.remaining self.new.input)) }
        ensures end { IfOk result (λ count. IsTrue R.tells
            → (count ≡ 0) ↔ (octets_left (R.remaining self.old.input) ≡ [])) }
        ensures failed { OnErr result (IsTrue R.tells
            → octets_left (R.remaining self.new.input) ≡ octets_left (R.remaining self.old.input)) }
        ensures faults { self.old.faults ≤ self.new.faults }
        ensures takes { (self.old.takes ≤ self.new.takes) × (self.new.takes ≤ self.old.takes + 1) }
        ensures counted { OnOk result (Rose self.old.takes self.new.takes) }
        ensures no_fault { OnOk result (self.new.faults ≡ self.old.faults) }
        ensures cause { OnErr result (Rose self.old.faults self.new.faults) }
    {
        self.takes = self.takes.saturating_add(1);
        match read_some(&mut self.input, into) {
            Some(count) => Ok(count),
            None => {
                self.faults = self.faults.saturating_add(1);
                Err(Failed)
            }
        }
    }
}
