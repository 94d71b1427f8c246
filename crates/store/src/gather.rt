ghost use Rattle.std.specs.Prelude.{◌≡◌, length, take, IsOkAnd};
ghost use Rattle.rules.specs.Sets.{has as has_page};
ghost use Rattle.rules.specs.Moves.{gathered};
ghost use Rattle.rules.specs.Calls.{row_of};
ghost use Rattle.store.specs.Moves.{CanFetch, CanRewrite, Laid, page_if};
ghost use Rattle.store.specs.State.{state_of};

use crate::group::Group;
use crate::maps::Maps;
use flash::device::Flash;
use flash::refusal::Refusal;
use rules::pages::PageSet;

impl Maps {
    // Copies one page of a block's new contents: the group's, whose bytes come first among the rest, or else the one
    // that is held. Tells whether there is one.
    fn fetch<F: Flash>(
        &self,
        flash: &F,
        group: &Group<'_>,
        page: usize,
        rest: &[u8],
        into: &mut [u8],
    ) -> Result<bool, Refusal>
        requires { CanFetch (state_of self.now (F.card flash.now)) group.now.block.0 page group.now.pages.0 (length rest.now) (length into.old) }
        ensures { IsOkAnd result (λ there. page_if there into.new ≡ gathered (state_of self.now (F.card flash.now)) group.now.block.0 (λ _. page_if (has_page group.now.pages.0 page) (take (F.card flash.now).shape.size rest.now)) page) }
    {
        if group.pages.has(page) {
            into.copy_from_slice(&rest[..into.len()]);
            return Ok(true);
        }
        let Some((_, held_in, held_at)) = self.locate(group.block, page) else {
            return Ok(false);
        };
        flash.read(held_in, held_at, into)?;
        Ok(true)
    }

    // Gathers a block's new contents in the area, each page at its own place: the group's pages, which lie one after
    // the other in its bytes, and the other held ones. Tells which there are.
    pub(crate) fn gather<F: Flash>(
        &self,
        flash: &F,
        group: &Group<'_>,
        area: &mut [u8],
    ) -> Result<PageSet, Refusal>
        requires { CanRewrite (state_of self.now (F.card flash.now)) group.now.block.0 group.now.pages.0 (length group.now.bytes.now) (length area.old) }
        ensures { IsOkAnd result (λ pages. Laid (gathered (state_of self.now (F.card flash.now)) group.now.block.0 (row_of (F.card flash.now).shape.size group.now.pages.0 group.now.bytes.now)) pages.0 (F.card flash.now).shape.size area.new self.now.pages) }
    {
        let size = flash.geometry().size;
        let mut rest = group.bytes;
        let mut pages = PageSet::EMPTY;
        for page in 0..self.pages {
            // by its place: of chunks that were lent as `&mut`, a proof knows only the length once they are back
            let start = page * size;
            let into = &mut area[start..start + size];
            if self.fetch(flash, group, page, rest, into)? {
                pages = pages.with(page);
            }
            if group.pages.has(page) {
                rest = &rest[size..];
            }
        }
        Ok(pages)
    }
}
