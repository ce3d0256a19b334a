// The device that the program's words name.
ghost use Rattle.std.specs.Prelude.{◌≡◌};
ghost use Rattle.station.specs.Devices.{device_named};
ghost use Rattle.station.specs.Numbers.{in_range, number_named};
ghost use Rattle.station.specs.Words.{texts_of};

use crate::number_words::number_in;

/// The least number of blocks of a device.
const LEAST: u64 = 16;

/// The greatest number of blocks of a device.
const MOST: u64 = 512;

/// On what device a session runs.
#[derive(Clone, Copy, Debug, PartialEq, Eq)]
pub enum Device {
    /// In memory, with this many blocks, 16 to 512.
    Memory(u32),
    /// In the file whose path is the second word.
    File,
}

// The number of blocks that a word says, if it is that of a device.
fn blocks_in(word: &str) -> Option<u32>
    ensures { result ≡ in_range 16 512 (number_named word.now) }
{
    let blocks = number_in(word)?;
    if blocks < LEAST || blocks > MOST {
        return None;
    }
    Some(blocks as u32)
}

/// The device that the first two words name: `mem` and 1 to 20 decimal digits, whose number is from 16
/// to 512, or `file` and any word.
pub fn device_of(words: &Vec<String>) -> Option<Device>
    ensures { result ≡ device_named (texts_of words.now) }
{
    if words.len() < 2 {
        return None;
    }
    let kind = words[0].as_str();
    if kind == "mem" {
        return Some(Device::Memory(blocks_in(words[1].as_str())?));
    }
    if kind == "file" {
        return Some(Device::File);
    }
    None
}
