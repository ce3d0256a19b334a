// How a root is written in a page, and read from it.
ghost use Rattle.std.specs.Prelude.{◌≡◌, Some, length};
ghost use Rattle.root_vote.specs.Roots.{is_formed, root_in, root_page};

use crate::root::Root;
use octet_fields::{put_octets, put_u8, put_u32, put_u64, u32_at, u64_at};

const TEXT: [u8; 8] = [80, 85, 83, 83, 84, 79, 82, 69];

const ZEROS: [u8; 235] = [0; 235];

/// The page that spells a root.
pub fn root_page(root: Root) -> [u8; 256]
    ensures page { result ≡ root_page root }
    ensures read { root_in result ≡ Some root }
{
    let mut page = [0; 256];
    put_octets(&mut page, 0, &TEXT);
    put_u8(&mut page, 8, root.version);
    put_u32(&mut page, 9, root.blocks);
    put_u64(&mut page, 13, root.generation);
    page
}

// Whether a page of 256 octets has the text of a root, and zeros behind its numbers.
fn is_formed(page: &[u8]) -> bool
    requires { length page.now ≡ 256 }
    ensures { result ≡ is_formed page.now }
{
    &page[..8] == TEXT.as_slice() && &page[21..] == ZEROS.as_slice()
}

/// The root that a page of 256 octets spells.
#[tactic(auto, unfolding(crate::specs::Roots::root_in))]
pub fn root_in(page: &[u8]) -> Option<Root>
    requires { length page.now ≡ 256 }
    ensures { result ≡ root_in page.now }
{
    if is_formed(page) {
        Some(Root {
            generation: u64_at(page, 13),
            blocks: u32_at(page, 9),
            version: page[8],
        })
    } else {
        None
    }
}
