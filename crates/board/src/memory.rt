// A board in memory. It tells all, and keeps what it began with and each step since.
ghost use Rattle.std.specs.Prelude.{◌≡◌, ◌≤◌, ◌<◌, ◌+◌, ◌*◌, ◌/◌, ◌%◌, ◌++◌, ℕ, [], ◌∷◌, length, true, false, IfOk, OnOk, OnErr};
ghost use Rattle.board.specs.Flash.{blank};

use crate::cache::pages_of;
use crate::calls::{CallKind, Calls};
use crate::history::History;
use std::alloc::{AllocError, Global};

/// A device in memory, whose link keeps what it was sent.
#[derive(Drop)]
pub struct MemBoard {
    pub(crate) history: History,
    pub(crate) calls: Calls,
    pub(crate) flash_faults: u64,
    pub(crate) link_faults: u64,
    pub(crate) starved: bool,
}

impl MemBoard {
    ghost use Rattle.board.specs.Kinds.{at_kind, changed, each};
    ghost use Rattle.board.specs.Memory.{IsNewBoard, SameButPlans, calls_made, device_of, flash_of, is_starved, moment_of, pages_in, planned_calls, sent_at};

    /// A board of 16 to 512 blocks of blank pages, all of them clean. Nothing has been sent, and no
    /// call is to fail.
    pub fn new(alloc: Global, blocks: u32) -> Result<MemBoard, AllocError>
        requires least { 16 ≤ blocks }
        requires most { blocks ≤ 512 }
        ensures { IfOk result (IsNewBoard blocks (λ p. blank) true) }
    {
        let history = History::blank(alloc, blocks)?;
        Ok(MemBoard::with_history(alloc, history))
    }

    /// A board whose pages hold an image of 65,536 octets a block, in the order of their numbers. No
    /// page is clean. Nothing has been sent, and no call is to fail.
    pub fn from_image(alloc: Global, image: Vec<u8>) -> Result<MemBoard, AllocError>
        requires whole { length image.items % 65536 ≡ 0 }
        requires least { 16 * 65536 ≤ length image.items }
        requires most { length image.items ≤ 512 * 65536 }
        ensures { IfOk result (IsNewBoard (length image.items / 65536) (pages_in image.items) false) }
    {
        let blocks = (image.len() / 65536) as u32;
        let pages = pages_of(alloc, &image)?;
        let history = History::with_pages(alloc, blocks, pages)?;
        Ok(MemBoard::with_history(alloc, history))
    }

    // A board on which no call was made yet.
    pub(crate) fn with_history(alloc: Global, history: History) -> MemBoard
        ensures history { result.history ≡ history }
        ensures made { calls_made result ≡ each 0 }
        ensures planned { planned_calls result ≡ each [] }
        ensures faults { (result.flash_faults ≡ 0) × (result.link_faults ≡ 0) }
        ensures starved { result.starved ≡ false }
    {
        MemBoard {
            history,
            calls: Calls::new(alloc),
            flash_faults: 0,
            link_faults: 0,
            starved: false,
        }
    }

    /// All octets that were sent.
    pub fn sent(&self) -> &[u8]
        ensures { result.now ≡ sent_at self.now (moment_of self.now) }
    {
        &self.history.sent
    }

    /// Whether a call has found no memory.
    pub fn starved(&self) -> bool
        ensures { result ≡ is_starved self.now }
    {
        self.starved
    }

    /// How many steps there were: programs, erases, barriers and sends, and programs and erases that
    /// were planned to fail.
    pub fn moments(&self) -> u64
        ensures { result ≡ moment_of self.now }
    {
        self.history.steps.len() as u64
    }

    /// How many calls of a kind there were, those that failed among them.
    pub fn count(&self, kind: CallKind) -> u64
        ensures { result ≡ at_kind kind (calls_made self.now) }
    {
        self.calls.count(kind)
    }

    /// The 256 octets that a page holds now.
    pub fn page(&self, block: u32, page: u32) -> &[u8]
        requires block { block < (device_of self.now).blocks }
        requires page { page < 256 }
        ensures { result.now ≡ (flash_of self.now).content (256 * block + page) }
    {
        &self.history.pages[(256 * block + page) as usize]
    }

    /// From now on the call of that kind with that number fails too, counted from 1 since the board
    /// was made.
    pub fn plan(&mut self, kind: CallKind, number: u64) -> Result<(), AllocError>
        ensures ok { OnOk result (planned_calls self.new ≡ changed kind (λ numbers. numbers ++ number ∷ []) (planned_calls self.old)) }
        ensures err { OnErr result (planned_calls self.new ≡ planned_calls self.old) }
        ensures same { SameButPlans self.old self.new }
    {
        self.calls.plan(kind, number)
    }
}
