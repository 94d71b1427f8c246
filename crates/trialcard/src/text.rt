ghost use Rattle.std.specs.Prelude.{◌≡◌, IfOk, string_bytes};
ghost use Rattle.trialcard.specs.Card.{text_for};

use crate::card::{CHIP, run_on};
use crate::lines::{push_end, push_lines};
use chips::plain::PlainChip;
use std::alloc::{AllocError, Global};
use worklist::fault::ListFault;

// The longest work list that the trial card takes, in bytes.
const LONGEST: usize = 4096;

// What is printed for a work list on a fresh trial card: a line for each record and a last line that tells how the list
// ended, or only the last line if the list is too long.
pub fn text_for(heap: Global, list: &[u8]) -> Result<String, AllocError>
    ensures { IfOk result (λ t. string_bytes t ≡ text_for list.now) }
{
    let mut text = String::new(heap);
    if list.len() > LONGEST {
        push_end(&mut text, Some(ListFault::TooLong), 0)?;
        return Ok(text);
    }
    let mut memory = [0u8; 80];
    let mut answers = [0u8; 16_384];
    let ended = run_on(PlainChip::new(&mut memory, CHIP), list, &mut answers);
    push_lines(&mut text, &answers[..ended.written])?;
    push_end(&mut text, ended.fault, ended.place)?;
    Ok(text)
}
