ghost use Rattle.std.specs.Prelude.{◌≡◌, length};
ghost use Rattle.bringup.specs.Pattern.{pattern_byte, pattern};

use flash::block::PhysicalBlock;

// One byte of the pattern, which differs from block to block, page to page and place to place.
fn pattern_byte(block: PhysicalBlock, page: usize, place: usize) -> u8
    ensures { result ≡ pattern_byte block.0 page place }
{
    let number = block.0 as usize % 251;
    ((number * 31 + page % 251 * 7 + place % 251) % 251) as u8
}

// Fills a buffer with the pattern of a page.
pub fn fill_pattern(block: PhysicalBlock, page: usize, into: &mut [u8])
    ensures { into.new ≡ pattern block.0 page (length into.old) }
{
    for (place, byte) in into.iter_mut().enumerate() {
        *byte = pattern_byte(block, page, place);
    }
}
