ghost use Rattle.std.specs.Prelude.{◌≡◌, length, IsOkAnd, OnErr};
ghost use Rattle.rules.specs.Calls.{flush as flush_call, flushed, row_of};
ghost use Rattle.rules.specs.Sets.{pages_in};
ghost use Rattle.store.specs.Calls.{state_in, state_after, CarriedOut, AnsweredAs, FewAs, area_after, block_bytes};
ghost use Rattle.store.specs.Rounds.{CanPlace};
ghost use Rattle.store.specs.State.{state_of};

use crate::group::Group;
use crate::maps::Maps;
use crate::refusal::StoreRefusal;
use crate::region::Region;
use crate::report::Report;
use crate::store::Store;
use flash::device::Flash;
use flash::refusal::Refusal;
use rules::block::LogicalBlock;
use rules::pages::PageSet;

impl Maps {
    // Puts a group where it belongs: into its data block if it has more pages than the threshold, and otherwise into
    // the page-mapped region, after as many rounds of garbage collection as it takes to make room.
    fn place_group<F: Flash>(
        &mut self,
        flash: &mut F,
        group: &Group<'_>,
        area: &mut [u8],
    ) -> Result<Report, Refusal>
        requires { CanPlace (state_of self.old (F.card flash.old)) group.now.block.0 group.now.pages.0 (length group.now.bytes.now) (length area.old) }
        ensures { IsOkAnd result (λ report. CarriedOut report (state_of self.new (F.card flash.new)) (flushed (state_of self.old (F.card flash.old)) group.now.block.0 group.now.pages.0 (row_of (F.card flash.old).shape.size group.now.pages.0 group.now.bytes.now))) }
    {
        let slots = group.pages.len();
        if slots > self.plan.threshold {
            let erases = self.rewrite(flash, group, area)?;
            return Ok(Report {
                way: Some(Region::BlockMapped),
                erases,
                ..Report::default()
            });
        }
        let tally = self.make_room(flash, slots, area)?;
        self.discard(group.block, group.pages);
        self.append_pages(flash, group)?;
        Ok(tally.report(Some(Region::PageMapped)))
    }
}

impl<F: Flash> Store<F> {
    // Stores the pages of a group, whose bytes come in ascending order of the pages, by way of a work area of at least
    // a block's pages. The report tells where the group went and what garbage collection it took.
    pub fn flush(
        &mut self,
        block: LogicalBlock,
        pages: PageSet,
        bytes: &[u8],
        area: &mut [u8],
    ) -> Result<Report, StoreRefusal>
        ensures tells { AnsweredAs result (state_in self.old.maps (F.card self.old.flash)) (flush_call block.0 pages.0 bytes.now (length area.old)) }
        ensures leaves { state_in self.new.maps (F.card self.new.flash) ≡ state_after (state_in self.old.maps (F.card self.old.flash)) (flush_call block.0 pages.0 bytes.now (length area.old)) }
        ensures clears { area.new ≡ area_after result (block_bytes (F.card self.old.flash)) area.old }
        ensures few { FewAs result (pages_in (F.card self.old.flash).shape.pages pages.0) }
        ensures refused { OnErr result (self.new ≡ self.old) }
    {
        let group = Group {
            block,
            pages,
            bytes,
        };
        self.check_flush(&group, area.len())?;
        let Some(maps) = &mut self.maps else {
            unreachable!()
        };
        let used = maps.pages * self.flash.geometry().size;
        let lent = &mut area[..used];
        let Ok(report) = maps.place_group(&mut self.flash, &group, lent) else {
            unreachable!()
        };
        lent.fill(0);
        Ok(report)
    }
}
