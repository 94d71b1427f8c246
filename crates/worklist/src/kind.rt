ghost use Rattle.std.specs.Prelude.{◌≡◌};
ghost use Rattle.worklist.specs.Numbers.{kind_number, kind_for};

use crate::fault::ListFault;

// What a record is for.
#[derive(Clone, Copy, PartialEq, Eq, Debug)]
pub enum Kind {
    Flush = 1,
    Read = 2,
    Discard = 3,
    Idle = 4,
}

// The number that stands for the kind in records and answers.
impl From<Kind> for u8 {
    ghost from_gives = { λ kind number. number ≡ kind_number kind };

    fn from(kind: Kind) -> u8 {
        kind as u8
    }
}

// The kind that a number stands for.
impl TryFrom<u8> for Kind {
    type Error = ListFault;

    ghost try_from_gives = { λ number outcome. outcome ≡ kind_for number };

    fn try_from(number: u8) -> Result<Kind, ListFault> {
        match number {
            1 => Ok(Kind::Flush),
            2 => Ok(Kind::Read),
            3 => Ok(Kind::Discard),
            4 => Ok(Kind::Idle),
            _ => Err(ListFault::UnknownKind),
        }
    }
}
