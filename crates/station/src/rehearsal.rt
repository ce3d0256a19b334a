// A session over a device and a text in memory, which tell all: the premises of `station` are met.
ghost use Rattle.std.specs.Prelude.{◌≡◌, ◌≤◌, ◌*◌, ◌%◌, ℕ, length, IfOk};
ghost use Rattle.station.specs.Rehearsal.{
  RehearsedFormat,
  RehearsedFresh,
  RehearsedGenerate,
  RehearsedList,
  RehearsedNone,
  RehearsedRun,
};
ghost use Rattle.station.specs.Words.{AreFormat, AreFresh, AreGenerate, AreKnown, AreList, AreRun, texts_of};

use crate::ending::Ending;
use crate::session::station;
use board::{MemBoard, MemSource};
use std::alloc::{AllocError, Global};

/// How a session in memory ended, and what it left.
#[derive(Drop)]
pub struct Rehearsal {
    pub ending: Ending,
    pub board: MemBoard,
    pub source: MemSource,
}

/// A session with these words over a device of this image and this text, both in memory. The image has
/// 65,536 octets for each of 16 to 512 blocks.
pub fn rehearse(
    alloc: Global,
    words: &Vec<String>,
    image: Vec<u8>,
    text: Vec<u8>,
) -> Result<Rehearsal, AllocError>
    requires whole { length image.items % 65536 ≡ 0 }
    requires least { 16 * 65536 ≤ length image.items }
    requires most { length image.items ≤ 512 * 65536 }
    ensures run { IfOk result (λ rehearsal. AreRun (texts_of words.now) → RehearsedRun
        image.items text.items rehearsal.ending rehearsal.board rehearsal.source) }
    ensures fresh { IfOk result (λ rehearsal. AreFresh (texts_of words.now) → RehearsedFresh
        image.items text.items rehearsal.ending rehearsal.board rehearsal.source) }
    ensures format { IfOk result (λ rehearsal. AreFormat (texts_of words.now) → RehearsedFormat
        image.items text.items rehearsal.ending rehearsal.board rehearsal.source) }
    ensures list { IfOk result (λ rehearsal. AreList (texts_of words.now) → RehearsedList
        image.items text.items rehearsal.ending rehearsal.board rehearsal.source) }
    ensures generate { IfOk result (λ rehearsal. (number : ℕ) (count : ℕ)
        → AreGenerate number count (texts_of words.now) → RehearsedGenerate number count
        image.items text.items rehearsal.ending rehearsal.board rehearsal.source) }
    ensures other_words { IfOk result (λ rehearsal. ¬ (AreKnown (texts_of words.now)) → RehearsedNone
        image.items text.items rehearsal.ending rehearsal.board rehearsal.source) }
{
    let mut board = MemBoard::from_image(alloc, image)?;
    let mut source = MemSource::new(text);
    let ending = station(alloc, words, &mut source, &mut board);
    Ok(Rehearsal {
        ending,
        board,
        source,
    })
}
