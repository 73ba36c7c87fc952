// The check of an expression in prefix form.
ghost use Rattle.std.specs.Prelude.{◌≡◌, ◌<◌, length, Ok, Err, MatchResult, OnOk};
ghost use Rattle.std.specs.List.{slice_get};
ghost use Rattle.sheet.specs.Checks.{check, fault as fault_at, known, check_line};

use crate::fault::{Expected, Fault};
use crate::reader::Reader;
use crate::word::{Term, Word};
use values::kind::Kind;
use values::value::TextFault;

// The most levels that an expression may nest.
pub const LEVELS: u8 = 32;

impl Reader<'_> {
    fn fault(&self, expected: Expected) -> Fault
        ensures { result ≡ fault_at self.now.at expected }
    {
        Fault {
            word: self.at + 1,
            expected,
        }
    }

    // The term here, where a part of a kind is awaited.
    fn term(&self, kind: Option<Kind>) -> Result<Term, Fault>
        ensures exact { result ≡ known (slice_get self.now.words.now self.now.at) kind self.now.at }
        ensures inside { OnOk result (self.now.at < length self.now.words.now) }
    {
        match self.words.get(self.at) {
            Some(Ok(term)) => Ok(*term),
            Some(Err(TextFault::NotAValue)) => Err(self.fault(Expected::Word)),
            Some(Err(TextFault::OutOfRange)) => Err(self.fault(Expected::Number)),
            None => Err(self.fault(Expected::part(kind))),
        }
    }

    // The kind of the expression here, behind which it moves; it may nest `levels` deep.
    fn part(&mut self, levels: u8, kind: Option<Kind>) -> Result<Kind, Fault>
        ensures exact { MatchResult result (λ k. Ok (self.new.at, k) ≡ check levels self.old.words.now self.old.at kind) (λ f. Err f ≡ check levels self.old.words.now self.old.at kind) }
        ensures words { self.new.words.now ≡ self.old.words.now }
        ensures behind { OnOk result (self.old.at < self.new.at) }
    {
        let term = self.term(kind)?;
        if levels == 0 {
            return Err(self.fault(Expected::FewerLevels));
        }
        if !term.kind().is_awaited(kind) {
            return Err(self.fault(Expected::part(kind)));
        }
        self.at += 1;
        match term {
            Term::Value(_) => Ok(term.kind()),
            Term::Not => {
                self.part(levels - 1, Some(Kind::Boolean))?;
                Ok(Kind::Boolean)
            }
            Term::Binary(op) => {
                let first = self.part(levels - 1, op.part_kind())?;
                self.part(levels - 1, Some(first))?;
                Ok(op.gives())
            }
        }
    }
}

// The kind of the whole expression, behind which no word stands.
pub fn check_words(words: &[Word]) -> Result<Kind, Fault>
    ensures { result ≡ check_line words.now }
{
    let mut reader = Reader::new(words);
    let kind = reader.part(LEVELS, None)?;
    if reader.at < words.len() {
        return Err(reader.fault(Expected::End));
    }
    Ok(kind)
}
