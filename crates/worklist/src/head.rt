ghost use Rattle.std.specs.Prelude.{◌≡◌};
ghost use Rattle.worklist.specs.Records.{zeros_in, head_in};

use crate::fault::ListFault;
use crate::kind::Kind;

// What the first two bytes of a record say.
#[derive(Clone, Copy)]
pub(crate) struct Head {
    pub(crate) kind: Kind,
    pub(crate) block: u8,
    pub(crate) page: u8,
}

// Whether those fields are zero that a kind has no use for.
fn zeros_in(kind: Kind, block: u8, page: u8) -> bool
    ensures { result ≡ zeros_in kind block page }
{
    match kind {
        Kind::Flush | Kind::Discard => page == 0,
        Kind::Read => true,
        Kind::Idle => block == 0 && page == 0,
    }
}

// The head in two bytes, most significant first.
impl TryFrom<[u8; 2]> for Head {
    type Error = ListFault;

    ghost try_from_gives = { λ bytes outcome. outcome ≡ head_in bytes };

    fn try_from(bytes: [u8; 2]) -> Result<Head, ListFault> {
        let word = u16::from_be_bytes(bytes);
        let kind = Kind::try_from((word / 8192) as u8)?;
        let block = (word / 64 % 128) as u8;
        let page = (word % 64) as u8;
        if !zeros_in(kind, block, page) {
            return Err(ListFault::NotZero);
        }
        Ok(Head { kind, block, page })
    }
}
