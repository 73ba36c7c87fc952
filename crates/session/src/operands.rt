// The operands of commands, read from words.
ghost use Rattle.std.specs.Prelude.{◌≡◌, ℕ, MatchOption, MatchResult, vec_items};
ghost use Rattle.records.specs.declared.step.Step.{Step as StepRow};
ghost use Rattle.rota.specs.Words.{texts};
ghost use Rattle.session.specs.Operands.{TableRoom, JournalRoom, BudgetRoom, StepFields, ValueWords};
ghost use Rattle.session.specs.Values.{NoValues};

use records::step::Step;
use rota::words::{byte, number, two_bytes};
use std::alloc::{AllocFailed, Global};
use values::row::Row;
use values::value::Value;

// The room of a step table: 1,088 where no word states it.
pub fn table_room(words: &[&str]) -> Option<u16>
    ensures { MatchOption result ((n : ℕ) → TableRoom (texts words.now) n → ⊥) (λ n. TableRoom (texts words.now) n) }
{
    match words {
        [] => Some(1088),
        [room] => two_bytes(room),
        _ => None,
    }
}

// The room of a journal.
pub fn journal_room(words: &[&str]) -> Option<u16>
    ensures { MatchOption result ((n : ℕ) → JournalRoom (texts words.now) n → ⊥) (λ n. JournalRoom (texts words.now) n) }
{
    match words {
        [room] => two_bytes(room),
        _ => None,
    }
}

// A budget, and the room of a step table.
pub fn budget_room(words: &[&str]) -> Option<(u32, u16)>
    ensures { MatchOption result ((budget room : ℕ) → BudgetRoom (texts words.now) budget room → ⊥) (λ b. BudgetRoom (texts words.now) b.0 b.1) }
{
    let [budget, rest @ ..] = words else {
        return None;
    };
    let budget = number(budget, u32::MAX)?;
    let room = table_room(rest)?;
    Some((budget, room))
}

// Some word is no byte, or there are fewer than seven.
#[derive(Clone, Copy)]
pub struct Wrong;

// The step of the first seven words, each a byte.
pub fn step_of(words: &[&str]) -> Result<Step, Wrong>
    ensures { MatchResult result (λ s. StepFields (texts words.now) s) (λ _. (s : StepRow) → StepFields (texts words.now) s → ⊥) }
{
    let [
        kind,
        process,
        front,
        partner,
        partner_front,
        channel,
        message,
        ..
    ] = words
    else {
        return Err(Wrong);
    };
    Ok(Step {
        kind: byte(kind, u8::MAX, Wrong)?,
        process: byte(process, u8::MAX, Wrong)?,
        front: byte(front, u8::MAX, Wrong)?,
        partner: byte(partner, u8::MAX, Wrong)?,
        partner_front: byte(partner_front, u8::MAX, Wrong)?,
        channel: byte(channel, u8::MAX, Wrong)?,
        message: byte(message, u8::MAX, Wrong)?,
    })
}

// Why words give no values.
#[derive(Clone, Copy)]
pub enum ValuesFault {
    NotAValue,
    NoMemory,
}

impl From<AllocFailed<Row>> for ValuesFault {
    ghost use Rattle.session.specs.declared.operands.ValuesFault.TheVariants.{NoMemory};

    ghost from_gives = { λ _ r. r ≡ NoMemory };

    fn from(_error: AllocFailed<Row>) -> Self {
        ValuesFault::NoMemory
    }
}

// The rows of the values that words write.
pub fn rows_of(heap: Global, words: &[&str]) -> Result<Vec<Row>, ValuesFault>
    ensures { MatchResult result (λ rows. ValueWords (texts words.now) (vec_items rows)) (NoValues (texts words.now)) }
{
    let mut rows = Vec::new(heap);
    // a word that writes no value is one fault, and a list that does not grow another
    for word in words {
        let Ok(value) = word.parse::<Value>() else {
            return Err(ValuesFault::NotAValue);
        };
        rows.push(Row::from(value))?;
    }
    Ok(rows)
}
