ghost use Rattle.std.specs.Prelude.{◌≡◌};
ghost use Rattle.std.specs.Result.{ForOk};
ghost use Rattle.store.specs.Calls.{way_in};
ghost use Rattle.worklist.specs.Answers.{fields_for, fields_bytes, fields_in, answer_of};
ghost use Rattle.worklist.specs.Numbers.{kind_number};
ghost use Rattle.worklist.specs.Carry.{Small};

use crate::kind::Kind;
use store::refusal::StoreRefusal;
use store::region::Region;
use store::report::Report;

// What four bytes of an answer buffer say. The fields are numbers, since any four bytes say something: also those that
// name no kind of record and no refusal.
#[derive(Clone, Copy, PartialEq, Eq, Debug)]
pub struct AnswerRecord {
    // the number of the record's kind
    pub kind: u8,
    // 0, or the number of the refusal
    pub number: u8,
    // where a flushed group went or a read page was held: 1 the page-mapped region, 2 a data block, 0 neither
    pub way: u8,
    pub erases: u8,
    pub compactions: u8,
    pub merges: u8,
}

// Byte by byte, as the definition of the fields takes them apart.
impl From<[u8; 4]> for AnswerRecord {
    ghost from_gives = { λ bytes fields. fields ≡ fields_in bytes };

    fn from(bytes: [u8; 4]) -> AnswerRecord {
        AnswerRecord {
            kind: bytes[0] / 32,
            number: bytes[0] % 32,
            way: bytes[1] / 64,
            erases: bytes[1] % 64 * 4 + bytes[2] / 64,
            compactions: bytes[2] % 64 * 2 + bytes[3] / 128,
            merges: bytes[3] % 128,
        }
    }
}

// What is answered to a record of a kind: the report of what was done, or why it is refused.
#[derive(Clone, Copy)]
pub(crate) struct Answer {
    pub(crate) kind: Kind,
    pub(crate) outcome: Result<Report, StoreRefusal>,
    ghost small: { ForOk outcome Small },
}

// The number of a way. A function, since `Option` and `u8` are both the library's.
fn way_number(way: Option<Region>) -> u8
    ensures { result ≡ way_in way }
{
    way.map_or(0, u8::from)
}

// The four bytes of an answer. All is zero after the number of a refusal.
impl From<Answer> for [u8; 4] {
    ghost from_gives = { λ answer bytes.
        bytes ≡ fields_bytes (fields_for (kind_number answer.kind) (answer_of answer.outcome)) };

    fn from(answer: Answer) -> [u8; 4] {
        let kind = u32::from(u8::from(answer.kind)) << 29;
        let word = match answer.outcome {
            Ok(report) => {
                let way = u32::from(way_number(report.way)) << 22;
                let erases = (report.erases as u32) << 14;
                let compactions = (report.compactions as u32) << 7;
                kind + way + erases + compactions + report.merges as u32
            }
            Err(refusal) => kind + (u32::from(u8::from(refusal)) << 24),
        };
        word.to_be_bytes()
    }
}
