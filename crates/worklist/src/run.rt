ghost use Rattle.std.specs.Prelude.{◌≡◌, length};
ghost use Rattle.store.specs.Calls.{state_in};
ghost use Rattle.worklist.specs.Law.{RunsAs};
ghost use Rattle.worklist.specs.Records.{item_of};
ghost use Rattle.worklist.specs.Runs.{room_for, run_of};

use crate::carry::carry;
use crate::ended::Ended;
use crate::fault::ListFault;
use crate::reader::Reader;
use crate::record::Record;
use flash::device::Flash;
use store::store::Store;

// The longest work list, in bytes.
const LONGEST: usize = 16_777_216;

// The bytes that the answer to a record may take.
fn room_for(work: Record, size: usize) -> u128
    ensures { result ≡ room_for size (item_of work.entry) }
{
    match work {
        Record::Read { .. } => 4 + size as u128,
        _ => 4,
    }
}

// Carries out the records of a work list on a store, one after the other, and writes their answers. Flushes and idle
// rounds go by way of a work area. The list stops before a record that is faulty or has no room for its answer; what
// was done before stands. A record that the store refuses is answered and does not stop the list.
pub fn run<F: Flash>(
    store: &mut Store<F>,
    list: &[u8],
    answers: &mut [u8],
    area: &mut [u8],
) -> Ended
    ensures { let s = state_in store.old.maps (F.card store.old.flash) in
        let s' = state_in store.new.maps (F.card store.new.flash) in
        let o = run_of list.now (F.card store.old.flash).shape.size (length answers.old) s area.old in
        RunsAs s o answers.old result s' answers.new area.new }
{
    if list.len() > LONGEST {
        return Ended {
            fault: Some(ListFault::TooLong),
            ..Ended::default()
        };
    }
    let size = store.flash().geometry().size;
    let mut reader = Reader::new(list, size);
    let mut total = Ended::default();
    loop {
        let Some(taken) = reader.next() else {
            return Ended {
                fault: reader.fault(),
                place: reader.place,
                ..total
            };
        };
        let left = &mut answers[total.written..];
        if (left.len() as u128) < room_for(taken.record, size) {
            return Ended {
                fault: Some(ListFault::NoRoom),
                place: taken.place,
                ..total
            };
        }
        total += carry(store, taken.record, size, left, area);
    }
}
