ghost use Rattle.std.specs.Prelude.{◌≡◌};
ghost use Rattle.worklist.specs.Numbers.{fault_number};

// Why a work list stops before its end.
#[derive(Clone, Copy, PartialEq, Eq, Debug)]
pub enum ListFault {
    // no record has this kind
    UnknownKind = 1,
    // a field is set that the kind has no use for
    NotZero = 2,
    // the list ends within a record
    CutShort = 3,
    // the answer buffer is too short for the record's answer
    NoRoom = 4,
    // the list is longer than a list may be
    TooLong = 5,
}

// The number that stands for the fault outside the program.
impl From<ListFault> for u8 {
    ghost from_gives = { λ fault number. number ≡ fault_number fault };

    fn from(fault: ListFault) -> u8 {
        fault as u8
    }
}
