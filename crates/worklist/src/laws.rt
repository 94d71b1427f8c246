// The laws of records and answers, each as the promise of a function: without their proofs the crate is refused.
ghost use Rattle.worklist.specs.Answers.{AnswersReturn};
ghost use Rattle.worklist.specs.Records.{RecordsReturn};

// A record that is written is read back as it was.
pub fn records_return()
    ensures { RecordsReturn }
{}

// An answer that is written is read back as it was.
pub fn answers_return()
    ensures { AnswersReturn }
{}
