ghost use Rattle.std.specs.Prelude.{◌≡◌, ◌+◌, [], ◌∷◌, ◌++◌, length, string_bytes, OnOk, Some};
ghost use Rattle.worklist.specs.Numbers.{end_number};
ghost use Rattle.trialcard.specs.Lines.{letter_for, hex_text, line_for, page_length, lines_for, end_line};

use std::alloc::AllocError;
use std::fmt;
use worklist::answer::AnswerRecord;
use worklist::fault::ListFault;
use worklist::kind::Kind;

// The letter of a kind of record, by the kind's number, and no `Display` of a kind: an answer that is read may name none.
fn letter(kind: u8) -> &'static str
    ensures { result.now ≡ letter_for kind ∷ [] }
{
    match Kind::try_from(kind) {
        Ok(Kind::Flush) => "F",
        Ok(Kind::Read) => "R",
        Ok(Kind::Discard) => "D",
        Ok(Kind::Idle) | Err(_) => "I",
    }
}

// Bytes, printed in base sixteen.
#[derive(Drop)]
struct Hex<'a>(&'a [u8]);

impl fmt::Display for Hex<'_> {
    ghost output = { λ bytes. Some (hex_text bytes.0.now) };

    fn fmt<W: fmt::Write>(&self, f: &mut fmt::Formatter<W>) -> fmt::Result {
        for &byte in self.0 {
            write!(f, "{byte:02x}")?;
        }
        Ok(())
    }
}

// An answer and the page that was read, if one was, printed as a line.
#[derive(Drop)]
struct Line<'a> {
    answer: AnswerRecord,
    page: &'a [u8],
}

impl fmt::Display for Line<'_> {
    ghost output = { λ line. Some (line_for line.answer line.page.now) };

    fn fmt<W: fmt::Write>(&self, f: &mut fmt::Formatter<W>) -> fmt::Result {
        let AnswerRecord {
            kind,
            number,
            way,
            erases,
            compactions,
            merges,
        } = self.answer;
        let letter = letter(kind);
        write!(f, "{letter} {number} {way} {erases} {compactions} {merges}")?;
        if !self.page.is_empty() {
            write!(f, " {}", Hex(self.page))?;
        }
        writeln!(f)
    }
}

// The bytes of a page of the trial card that follow an answer.
fn page_length(answer: AnswerRecord) -> usize
    ensures { result ≡ page_length answer }
{
    if answer.kind == u8::from(Kind::Read) && answer.number == 0 {
        4
    } else {
        0
    }
}

// Adds a line for each of the answers.
pub(crate) fn push_lines(text: &mut String, answers: &[u8]) -> Result<(), AllocError>
    ensures { let lines = lines_for (length answers.now + 1) answers.now in
        OnOk result (string_bytes text.new ≡ string_bytes text.old ++ lines) }
{
    let mut rest = answers;
    while let Some((fields, behind)) = rest.split_first_chunk::<4>() {
        let answer = AnswerRecord::from(*fields);
        let (page, next) = behind.split_at(page_length(answer).min(behind.len()));
        write!(text, "{}", Line { answer, page })?;
        rest = next;
    }
    Ok(())
}

// Adds the last line: the number of the fault, if there was one, and the place with which a list ended.
pub(crate) fn push_end(
    text: &mut String,
    fault: Option<ListFault>,
    place: usize,
) -> Result<(), AllocError>
    ensures { OnOk result (string_bytes text.new ≡ string_bytes text.old ++ end_line (end_number fault) place) }
{
    let number = fault.map_or(0, u8::from);
    writeln!(text, "E {number} {place}")
}
