ghost use Rattle.std.specs.Prelude.{◌≡◌, map, length};
ghost use Rattle.std.specs.Option.{option_map};
ghost use Rattle.flash.specs.Meaning.{block_count};
ghost use Rattle.flash.specs.Numbers.{number_of};
ghost use Rattle.flash.specs.Refusals.{erase_refusal, read_refusal};
ghost use Rattle.bringup.specs.Probed.{below_floor, worn_out, probed};

use flash::block::PhysicalBlock;
use flash::device::Flash;
use flash::geometry::Geometry;
use flash::refusal::Refusal;

// Tries to erase a block that does not exist.
fn erase_past<F: Flash>(flash: &mut F) -> Option<Refusal>
    ensures tells { option_map number_of result ≡ erase_refusal (F.card flash.old) (block_count (F.card flash.old)) }
    ensures leaves { F.card flash.new ≡ F.card flash.old }
{
    let past = PhysicalBlock(flash.geometry().blocks);
    flash.erase(past).err()
}

// Tries to read a page of block 0.
fn read_refused<F: Flash>(flash: &F, page: usize, into: &mut [u8]) -> Option<Refusal>
    ensures { option_map number_of result ≡ read_refusal (F.card flash.now) 0 page (length into.old) }
{
    flash.read(PhysicalBlock(0), page, into).err()
}

// Tries to program page 0 of block 0, where that is below the floor.
fn program_below<F: Flash>(flash: &mut F) -> Option<Refusal>
    ensures tells { option_map number_of result ≡ below_floor (F.card flash.old) }
    ensures leaves { F.card flash.new ≡ F.card flash.old }
{
    let size = flash.geometry().size;
    if flash.floor(PhysicalBlock(0)) == 0 {
        return None;
    }
    // as long as the longest page, since there is no heap
    let page = [0u8; 4096];
    flash.program(PhysicalBlock(0), 0, &page[..size]).err()
}

// Tries to erase block 0, where it has had all of its erases.
fn erase_worn<F: Flash>(flash: &mut F) -> Option<Refusal>
    ensures tells { option_map number_of result ≡ worn_out (F.card flash.old) }
    ensures leaves { F.card flash.new ≡ F.card flash.old }
{
    if flash.erase_count(PhysicalBlock(0)) < flash.geometry().endurance {
        return None;
    }
    flash.erase(PhysicalBlock(0)).err()
}

// Tries a call that is to be refused for each reason there is, and tells the refusals; the flash stays as it was.
pub fn probe_refusals<F: Flash>(flash: &mut F) -> [Option<Refusal>; 5]
    ensures tells { map (option_map number_of) result ≡ probed (F.card flash.old) }
    ensures leaves { F.card flash.new ≡ F.card flash.old }
{
    let Geometry { pages, size, .. } = flash.geometry();
    // as long as the longest page, since there is no heap
    let mut page = [0u8; 4096];
    let no_block = erase_past(flash);
    let no_page = read_refused(flash, pages, &mut page[..size]);
    let wrong_length = read_refused(flash, 0, &mut []);
    let below_floor = program_below(flash);
    let worn_out = erase_worn(flash);
    [no_block, no_page, wrong_length, below_floor, worn_out]
}
