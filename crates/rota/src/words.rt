// Numbers and steps, read from words.
ghost use Rattle.std.specs.Prelude.{◌≡◌, true, IfOk, Some, MatchOption, MatchResult, ◌==◌, slice_index};
ghost use Rattle.records.specs.declared.step.Step.{Step as StepRow};
ghost use Rattle.records.specs.Steps.{closed};
ghost use Rattle.choosers.specs.Fairness.{Numbered};
ghost use Rattle.rota.specs.Words.{step_fault_text, Number, NoNumber, StepWords, texts};

use records::step::{MEETING, Step};
use std::fmt;

/// Why words write no closed step.
#[derive(Clone, Copy, PartialEq, Eq, Debug)]
pub enum StepFault {
    /// There are not seven words.
    NotSevenNumbers,
    /// The kind is not that of a closed step.
    NotClosed,
    /// A process, or a meeting's partner, is no number from 0 to 7.
    NoProcess,
    /// Another field is no number from 0 to 255.
    NotAByte,
}

impl StepFault {
    /// The text itself: to write it can fail, to have it can not.
    pub fn text(self) -> &'static str
        ensures { result.now ≡ step_fault_text self }
    {
        match self {
            StepFault::NotSevenNumbers => "a step has seven numbers",
            StepFault::NotClosed => "a closed step has kind 0 or 1",
            StepFault::NoProcess => "a process is a number from 0 to 7",
            StepFault::NotAByte => "a field of a step is a number from 0 to 255",
        }
    }
}

impl fmt::Display for StepFault {
    ghost output = { λ e. Some (step_fault_text e) };

    fn fmt<W: fmt::Write>(&self, f: &mut fmt::Formatter<W>) -> fmt::Result {
        f.write_str(self.text())
    }
}

/// The number that a word of digits writes, from 0 to `top`.
pub fn number(word: &str, top: u32) -> Option<u32>
    ensures { MatchOption result (NoNumber top word.now) (λ n. Number top word.now n) }
{
    if has_plus(word) {
        return None;
    }
    word.parse::<u32>().ok().filter(|n| *n <= top)
}

/// The same of a number of two bytes, from 0 to 65535.
pub fn two_bytes(word: &str) -> Option<u16>
    ensures { MatchOption result (NoNumber 65535 word.now) (λ n. Number 65535 word.now n) }
{
    number(word, u16::MAX as u32).map(|n| n as u16)
}

/// The same of a number that fits a byte, or else this fault.
pub fn byte<E: Drop>(word: &str, top: u8, fault: E) -> Result<u8, E>
    ensures { MatchResult result (λ n. Number top word.now n) (λ e. NoNumber top word.now × (e ≡ fault)) }
{
    number(word, top as u32).map(|n| n as u8).ok_or(fault)
}

// Whether a plus stands first, which the library's reading would take.
fn has_plus(word: &str) -> bool
    ensures { result ≡ (slice_index word.now 0 == 43) }
{
    matches!(word.as_bytes(), [b'+', ..])
}

/// A closed step, by its seven numbers.
pub fn parse_step(words: &[&str]) -> Result<Step, StepFault>
    ensures exact { MatchResult result (λ s. StepWords (texts words.now) s) (λ _. (s : StepRow) → StepWords (texts words.now) s → ⊥) }
    ensures proper { IfOk result (λ s. (closed s ≡ true) × Numbered s) }
{
    let [
        kind,
        process,
        front,
        partner,
        partner_front,
        channel,
        message,
    ] = words
    else {
        return Err(StepFault::NotSevenNumbers);
    };
    let kind = byte(kind, 1, StepFault::NotClosed)?;
    let process = byte(process, 7, StepFault::NoProcess)?;
    let front = byte(front, u8::MAX, StepFault::NotAByte)?;
    let partner = byte(partner, u8::MAX, StepFault::NotAByte)?;
    let partner_front = byte(partner_front, u8::MAX, StepFault::NotAByte)?;
    let channel = byte(channel, u8::MAX, StepFault::NotAByte)?;
    let message = byte(message, u8::MAX, StepFault::NotAByte)?;
    if kind == MEETING && partner > 7 {
        return Err(StepFault::NoProcess);
    }
    Ok(Step {
        kind,
        process,
        front,
        partner,
        partner_front,
        channel,
        message,
    })
}
