// The answers of calls as text.
ghost use Rattle.std.specs.Prelude.{◌≡◌, Some, IfOk};
ghost use Rattle.session.specs.Answers.{took_text, answer_text};

use calling::call::Answer;
use records::record::Record;
use records::step::Step;
use records::texts::Listing;
use std::alloc::{AllocError, Global};
use std::fmt;

// The record of a step that was taken.
#[derive(Clone, Copy)]
struct Took<'a>(&'a [Record]);

impl fmt::Display for Took<'_> {
    ghost output = { λ t. Some (took_text t.0.now) };

    fn fmt<W: fmt::Write>(&self, f: &mut fmt::Formatter<W>) -> fmt::Result {
        write!(f, "took")?;
        for record in self.0 {
            write!(f, " {record}")?;
        }
        Ok(())
    }
}

// What is written of a call's answer, by the steps that a list wrote and the records that were entered.
pub(crate) fn answer_of(
    heap: Global,
    answer: Answer,
    steps: &[Step],
    entered: &[Record],
) -> Result<String, AllocError>
    ensures { IfOk result (λ text. text.bytes.items ≡ answer_text answer steps.now entered.now) }
{
    match answer {
        Answer::Loaded(Ok(())) => format!(in heap; "loaded"),
        Answer::Loaded(Err(fault)) => fault.to_string(heap),
        Answer::Listed(Ok(())) => Listing(steps).to_string(heap),
        Answer::Listed(Err(refusal)) => refusal.to_string(heap),
        Answer::Taken(Ok(())) => Took(entered).to_string(heap),
        Answer::Taken(Err(refusal)) => refusal.to_string(heap),
        Answer::Ran(Ok((count, stop))) => format!(in heap; "ran {count} {stop}"),
        Answer::Ran(Err(refusal)) => refusal.to_string(heap),
    }
}
