ghost use Rattle.std.specs.Prelude.{◌≡◌, ℕ, ◌*◌, ◌<◌, ◌≤◌, length, take, drop, None, IfOk, MatchOption, OnSome};
ghost use Rattle.rules.specs.Sets.{pages_in};
ghost use Rattle.worklist.specs.Records.{set_in, read_one, found_from, next_at, next_by, place_after};

use crate::fault::ListFault;
use crate::head::Head;
use crate::kind::Kind;
use crate::record::{Record, Taken};
use rules::block::LogicalBlock;
use rules::pages::PageSet;

// The set of pages in the first eight bytes, most significant first, and the bytes behind it.
fn split_set(bytes: &[u8]) -> Option<(PageSet, &[u8])>
    ensures { MatchOption result (length bytes.now < 8)
        (λ parts. (8 ≤ length bytes.now) × (parts.0.0 ≡ set_in bytes.now) × (parts.1.now ≡ drop 8 bytes.now)) }
{
    let (set, rest) = bytes.split_first_chunk()?;
    Some((PageSet(u64::from_be_bytes(*set)), rest))
}

// The data of a set's pages, each of so many bytes, and the bytes behind it.
fn split_data(bytes: &[u8], pages: PageSet, size: usize) -> Option<(&[u8], &[u8])>
    ensures { let wanted = pages_in 64 pages.0 * size in
        MatchOption result (length bytes.now < wanted)
        (λ parts. (wanted ≤ length bytes.now) × (parts.0.now ≡ take wanted bytes.now)
        × (parts.1.now ≡ drop wanted bytes.now)) }
{
    let wanted = pages.len().checked_mul(size)?;
    bytes.split_at_checked(wanted)
}

// The record at the front of some bytes, with pages of so many bytes, and the bytes behind it.
fn split_record(bytes: &[u8], size: usize) -> Result<(Record<'_>, &[u8]), ListFault>
    ensures is { (at : ℕ) → found_from at (length bytes.now) result ≡ read_one size at bytes.now }
    ensures within { IfOk result (λ parts. length parts.1.now ≤ length bytes.now) }
{
    let (head, rest) = bytes.split_first_chunk().ok_or(ListFault::CutShort)?;
    let Head { kind, block, page } = Head::try_from(*head)?;
    let block = LogicalBlock(block);
    match kind {
        Kind::Flush => {
            let (pages, rest) = split_set(rest).ok_or(ListFault::CutShort)?;
            let (bytes, rest) = split_data(rest, pages, size).ok_or(ListFault::CutShort)?;
            let record = Record::Flush {
                block,
                pages,
                bytes,
            };
            Ok((record, rest))
        }
        Kind::Read => {
            let page = usize::from(page);
            Ok((Record::Read { block, page }, rest))
        }
        Kind::Discard => {
            let (pages, rest) = split_set(rest).ok_or(ListFault::CutShort)?;
            Ok((Record::Discard { block, pages }, rest))
        }
        Kind::Idle => Ok((Record::Idle, rest)),
    }
}

// Takes the records out of a work list, one after the other, and remembers why there is no further one.
#[derive(Drop)]
pub struct Reader<'a> {
    pub(crate) list: &'a [u8],
    pub(crate) size: usize,
    pub(crate) place: usize,
    pub(crate) fault: Option<ListFault>,
}

impl<'a> Reader<'a> {
    // A reader at the start of a list, with pages of so many bytes.
    pub fn new(list: &'a [u8], size: usize) -> Reader<'a>
        ensures list { result.list.now ≡ list.now }
        ensures size { result.size ≡ size }
        ensures start { result.place ≡ 0 }
        ensures quiet { result.fault ≡ None }
    {
        Reader {
            list,
            size,
            place: 0,
            fault: None,
        }
    }

    // Why there was no further record: none at the list's end.
    pub fn fault(&self) -> Option<ListFault>
        ensures { result ≡ self.now.fault }
    {
        self.fault
    }

    // The next record. A fault is remembered, and no part of the result. A rule of the project: a run takes each record by
    // `let .. else`, and otherwise ends with the fault and the place that the reader tells.
    pub fn next(&mut self) -> Option<Taken<'a>>
        ensures is { next_by result self.new.fault ≡ next_at self.old.list.now self.old.place self.old.size }
        ensures on { self.new.place ≡ place_after result self.old.place }
        ensures quiet { OnSome result (self.new.fault ≡ None) }
        ensures same_list { self.new.list.now ≡ self.old.list.now }
        ensures same_size { self.new.size ≡ self.old.size }
    {
        self.fault = None;
        let list = self.list;
        let place = self.place;
        if place >= list.len() {
            return None;
        }
        match split_record(&list[place..], self.size) {
            Ok((record, rest)) => {
                self.place = list.len() - rest.len();
                Some(Taken {
                    record,
                    place,
                    next: self.place,
                })
            }
            Err(fault) => {
                self.fault = Some(fault);
                None
            }
        }
    }
}
