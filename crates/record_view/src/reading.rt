// The records of a block, one after another.
ghost use Rattle.std.specs.Prelude.{◌≡◌, ◌≤◌, length, IfNone, IfSome};
ghost use Rattle.std.specs.Iterator.{YieldsFirstBy, item_count};
ghost use Rattle.record_view.specs.Records.{moved, records_left};
ghost use Rattle.record_view.specs.View.{meaning_of};

use crate::view::{RecordView, read_record};
use space_packet::charge;
use std::marker::Model;

/// The records that a block of 65,536 octets spells, from page 0 on, with numbers that rise by one
/// and go on from 4,294,967,295 to 0. It ends at the first page that does not begin the next
/// record, or when it gave as many as it was asked for.
#[derive(Drop)]
pub struct Records<'a> {
    block: &'a [u8],
    number: u32,
    left: u32,
    page: u32,
}

impl<'a> Model for Records<'a> {
    ghost use Rattle.std.specs.Prelude.{◌≡◌, ◌≤◌, length};
    ghost use Rattle.record_view.specs.Records.{Reading};

    ghost Value = { Reading };

    ghost view = { λ records. record {
      block = records.block.now;
      number = records.number;
      left = records.left;
      page = records.page;
    } };

    ghost invariant = { λ records. (length records.block.now ≡ 65536) × (records.page ≤ 256) };
}

impl<'a> Records<'a> {
    /// The records of a block of 65,536 octets, of which the first has this number, at most `count`
    /// of them.
    pub fn new(block: &'a [u8], first: u32, count: u32) -> Records<'a>
        requires { length block.now ≡ 65536 }
        ensures { result ≡ record { block = block.now; number = first; left = count; page = 0 } }
    {
        Records {
            block,
            number: first,
            left: count,
            page: 0,
        }
    }

    /// How many records of those that were asked for were not given.
    pub fn left(&self) -> u32
        ensures { result ≡ self.now.left }
    {
        self.left
    }

    /// The page after the last record that was given, at most 256. 0 if none was given.
    pub fn page(&self) -> u32
        ensures page { result ≡ self.now.page }
        ensures within { result ≤ 256 }
    {
        self.page
    }

    /// The next record.
    pub fn next_record(&mut self) -> Option<RecordView<'a>>
        ensures gives { YieldsFirstBy meaning_of records_left self.old result self.new }
        ensures moves { IfSome result (λ view. self.new ≡ moved (meaning_of view) self.old) }
        ensures ends { IfNone result (self.new ≡ self.old) }
    {
        if self.left == 0 || self.page == 256 {
            return None;
        }
        let view = read_record(self.block, self.number, self.page)?;
        self.left -= 1;
        self.number = self.number.wrapping_add(1);
        self.page += charge(view.packet.bytes().len() as u32);
        Some(view)
    }
}

impl<'a> Iterator for Records<'a> {
    type Item = RecordView<'a>;

    ghost next_gives = { YieldsFirstBy meaning_of records_left };

    ghost remaining = { item_count records_left };

    fn next(&mut self) -> Option<RecordView<'a>> {
        self.next_record()
    }
}
