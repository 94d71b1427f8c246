// Carrying out one record: the call that it asks for is made, and its answer is written.
ghost use Rattle.std.specs.Prelude.{◌≡◌, ℕ, ◌+◌, ◌≤◌, List, length, drop, ◌++◌};
ghost use Rattle.rules.specs.Calls.{flush as flush_call, read as read_call, discard as discard_call, idle as idle_call};
ghost use Rattle.rules.specs.Runs.{erases_told};
ghost use Rattle.store.specs.Calls.{state_in, answer_in};
ghost use Rattle.worklist.specs.Answers.{answer_of, answered, fields_for, Packs};
ghost use Rattle.worklist.specs.Carry.{counts_of, Told};
ghost use Rattle.worklist.specs.Numbers.{kind_number};
ghost use Rattle.worklist.specs.Records.{item_of};
ghost use Rattle.worklist.specs.Runs.{call_for, room_for};

use crate::answer::Answer;
use crate::kind::Kind;
use crate::record::Record;
use crate::step::Step;
use flash::device::Flash;
use rules::block::LogicalBlock;
use rules::pages::PageSet;
use store::refusal::StoreRefusal;
use store::region::Region;
use store::report::Report;
use store::store::Store;

// Writes the fields of the answer to a record, which have room in four bytes and so are read back as they were, and
// counts what the record took. Groups are counted by the flush, which alone has any.
fn tell(answer: Answer, fields: &mut [u8; 4]) -> Step
    ensures counts { let a = answer_of answer.outcome in
        result ≡ record { written = 4; erases = erases_told a; large = 0; small = 0 } }
    ensures wrote { fields.new ≡ answered (kind_number answer.kind) (answer_of answer.outcome) }
    ensures packs { Packs (fields_for (kind_number answer.kind) (answer_of answer.outcome)) }
{
    *fields = <[u8; 4]>::from(answer);
    let erases = answer.outcome.map_or(0, |report| report.erases);
    Step {
        written: 4,
        erases,
        ..Step::default()
    }
}

// What a flush adds to the large groups, and to the pages of the others.
fn group_counts(outcome: Result<Report, StoreRefusal>, pages: PageSet) -> (usize, usize)
    ensures { result ≡ counts_of (answer_of outcome) pages.0 }
{
    match outcome {
        Ok(report) if report.way == Some(Region::BlockMapped) => (1, 0),
        Ok(_) => (0, pages.len()),
        Err(_) => (0, 0),
    }
}

// Flushes a group. This call of the store and the three below take different things; what is alike in their answers is
// `tell`.
fn carry_flush<F: Flash>(
    store: &mut Store<F>,
    block: LogicalBlock,
    pages: PageSet,
    bytes: &[u8],
    fields: &mut [u8; 4],
    area: &mut [u8],
) -> Step
    ensures told { let s = state_in store.old.maps (F.card store.old.flash) in
        let s' = state_in store.new.maps (F.card store.new.flash) in
        let c = flush_call block.0 pages.0 bytes.now (length area.old) in
        Told c (answer_in s c) s s' fields.old fields.new area.old area.new result }
    ensures four { result.written ≡ 4 }
{
    let outcome = store.flush(block, pages, bytes, area);
    let (large, small) = group_counts(outcome, pages);
    let kind = Kind::Flush;
    Step {
        large,
        small,
        ..tell(Answer { kind, outcome }, fields)
    }
}

// Reads a page, right into the bytes of the answers that follow the fields, which is a rule of the project.
fn carry_read<F: Flash>(
    store: &Store<F>,
    block: LogicalBlock,
    page: usize,
    fields: &mut [u8; 4],
    bytes: &mut [u8],
) -> Step
    ensures told { let s = state_in store.now.maps (F.card store.now.flash) in
        let c = read_call block.0 page (length bytes.old) in
        (area : List ℕ) → Told c (answer_in s c) s s (fields.old ++ bytes.old) (fields.new ++ bytes.new) area area result }
    ensures within { result.written ≤ 4 + length bytes.old }
{
    let kind = Kind::Read;
    let outcome = store.read(block, page, bytes).map(|region| Report {
        way: Some(region),
        ..Report::default()
    });
    let step = tell(Answer { kind, outcome }, fields);
    match outcome {
        Ok(_) => Step {
            written: 4 + bytes.len(),
            ..step
        },
        Err(_) => step,
    }
}

// Discards pages.
fn carry_discard<F: Flash>(
    store: &mut Store<F>,
    block: LogicalBlock,
    pages: PageSet,
    fields: &mut [u8; 4],
) -> Step
    ensures told { let s = state_in store.old.maps (F.card store.old.flash) in
        let s' = state_in store.new.maps (F.card store.new.flash) in
        let c = discard_call block.0 pages.0 in
        (area : List ℕ) → Told c (answer_in s c) s s' fields.old fields.new area area result }
    ensures four { result.written ≡ 4 }
{
    let kind = Kind::Discard;
    let outcome = store.discard(block, pages).map(|()| Report::default());
    tell(Answer { kind, outcome }, fields)
}

// Makes an idle round.
fn carry_idle<F: Flash>(store: &mut Store<F>, fields: &mut [u8; 4], area: &mut [u8]) -> Step
    ensures told { let s = state_in store.old.maps (F.card store.old.flash) in
        let s' = state_in store.new.maps (F.card store.new.flash) in
        let c = idle_call (length area.old) in
        Told c (answer_in s c) s s' fields.old fields.new area.old area.new result }
    ensures four { result.written ≡ 4 }
{
    let kind = Kind::Idle;
    let outcome = store.idle_round(area);
    tell(Answer { kind, outcome }, fields)
}

// Carries out a record, and writes its answer at the front of the answers. Store, answers and area are three loans of the
// caller's: a struct of them would be made and taken apart for each record.
pub(crate) fn carry<F: Flash>(
    store: &mut Store<F>,
    work: Record,
    size: usize,
    answers: &mut [u8],
    area: &mut [u8],
) -> Step
    requires { room_for size (item_of work) ≤ length answers.old }
    ensures told { let s = state_in store.old.maps (F.card store.old.flash) in
        let s' = state_in store.new.maps (F.card store.new.flash) in
        let c = call_for size (length area.old) (item_of work.entry) in
        Told c (answer_in s c) s s' answers.old answers.new area.old area.new result }
    ensures within { result.written ≤ room_for size (item_of work.entry) }
{
    let (fields, behind) = answers.split_first_chunk_mut().unwrap();
    match work {
        Record::Flush {
            block,
            pages,
            bytes,
        } => carry_flush(store, block, pages, bytes, fields, area),
        Record::Read { block, page } => carry_read(store, block, page, fields, &mut behind[..size]),
        Record::Discard { block, pages } => carry_discard(store, block, pages, fields),
        Record::Idle => carry_idle(store, fields, area),
    }
}
