ghost use Rattle.std.specs.Prelude.{◌≡◌, ◌≤◌, Some};
ghost use Rattle.bringup.specs.Checked.{added_as, Small};
ghost use Rattle.bringup.specs.Printed.{outcome_text, summary_text};

use std::fmt;

// What became of one block.
#[derive(Clone, Copy, PartialEq, Eq, Debug)]
pub enum BlockOutcome {
    // it was not blank and may not be erased any more, so it was left alone
    Worn,
    // it was blank, and the pattern was programmed
    Programmed,
    // it was erased, and then the pattern was programmed
    ErasedFirst,
}

// In a few words.
impl fmt::Display for BlockOutcome {
    ghost output = { λ outcome. Some (outcome_text outcome) };

    fn fmt<W: fmt::Write>(&self, f: &mut fmt::Formatter<W>) -> fmt::Result {
        match self {
            BlockOutcome::Worn => write!(f, "worn, left alone"),
            BlockOutcome::Programmed => write!(f, "programmed"),
            BlockOutcome::ErasedFirst => write!(f, "erased and programmed"),
        }
    }
}

// What a check adds up to.
#[derive(Clone, Copy, PartialEq, Eq, Debug, Default)]
pub struct Summary {
    // blocks that were looked at
    pub blocks: u16,
    // blocks that were left alone
    pub worn: u16,
    // blocks that were erased first
    pub erased: u16,
    // pages that were programmed
    pub programmed: usize,
    // pages among them that read back otherwise
    pub mismatched: usize,
}

impl Summary {
    // The summary with one more block of so many pages, of which some read back otherwise.
    pub(crate) fn with(self, outcome: BlockOutcome, pages: usize, mismatched: usize) -> Summary
        requires room { Small self }
        requires pages_few { pages ≤ 64 }
        requires mismatched_few { mismatched ≤ 64 }
        ensures { result ≡ added_as outcome pages mismatched self }
    {
        let seen = Summary {
            blocks: self.blocks + 1,
            mismatched: self.mismatched + mismatched,
            ..self
        };
        match outcome {
            BlockOutcome::Worn => Summary {
                worn: self.worn + 1,
                ..seen
            },
            BlockOutcome::Programmed => Summary {
                programmed: self.programmed + pages,
                ..seen
            },
            BlockOutcome::ErasedFirst => Summary {
                erased: self.erased + 1,
                programmed: self.programmed + pages,
                ..seen
            },
        }
    }
}

// On one line, each count with what it counts.
impl fmt::Display for Summary {
    ghost output = { λ summary. Some (summary_text summary) };

    fn fmt<W: fmt::Write>(&self, f: &mut fmt::Formatter<W>) -> fmt::Result {
        let Summary {
            blocks,
            worn,
            erased,
            programmed,
            mismatched,
        } = *self;
        write!(
            f,
            "{blocks} blocks, {worn} worn, {erased} erased, {programmed} pages programmed, {mismatched} mismatched"
        )
    }
}
