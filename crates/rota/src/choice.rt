// Which chooser a rota follows, read from words.
ghost use Rattle.std.specs.Prelude.{◌≡◌, ◌∷◌, Some, codes, MatchResult, ◌≢◌};
ghost use Rattle.rota.specs.Choices.{choice_fault_text, fair_name, choice_text, Chooses, Refused};
ghost use Rattle.rota.specs.Words.{texts};
ghost use Rattle.rota.specs.declared.choice.Fair.{Fair as FairName};
ghost use Rattle.rota.specs.declared.choice.ChoiceFault.TheVariants.{NoMemory, NoSuchChooser};

use crate::words::{byte, two_bytes};
use std::alloc::{AllocFailed, Global};
use std::fmt;
use std::str::FromStr;

/// The fair choosers that stand by themselves, and that Hold can stand over.
#[derive(Clone, Copy, PartialEq, Eq, Debug)]
pub enum Fair {
    /// Rotation.
    Rotation,
    /// Seniority.
    Seniority,
}

/// The chooser that words name.
#[derive(Drop)]
pub enum Choice {
    /// Script, with its numbers.
    Script(Vec<u16>),
    /// A fair chooser by itself.
    Plain(Fair),
    /// Hold with its K, over a fair chooser.
    Hold(u8, Fair),
}

/// Why words name no chooser.
#[derive(Clone, Copy, PartialEq, Eq, Debug)]
pub enum ChoiceFault {
    /// The words are no chooser's.
    NoSuchChooser,
    /// A number of a script, or Hold's K, is none or too high.
    NotANumber,
    /// There is no memory for the script's numbers.
    NoMemory,
}

impl ChoiceFault {
    /// The text itself: to write it can fail, to have it can not.
    pub fn text(self) -> &'static str
        ensures { result.now ≡ choice_fault_text self }
    {
        match self {
            ChoiceFault::NoSuchChooser => "no such chooser",
            ChoiceFault::NotANumber => {
                "a script has numbers from 0 to 65535, and hold one from 0 to 255"
            }
            ChoiceFault::NoMemory => "no memory for the script",
        }
    }
}

impl fmt::Display for ChoiceFault {
    ghost output = { λ e. Some (choice_fault_text e) };

    fn fmt<W: fmt::Write>(&self, f: &mut fmt::Formatter<W>) -> fmt::Result {
        f.write_str(self.text())
    }
}

impl From<AllocFailed<u16>> for ChoiceFault {
    ghost from_gives = { λ _ r. r ≡ NoMemory };

    fn from(_error: AllocFailed<u16>) -> Self {
        Self::NoMemory
    }
}

// The fair chooser that a word names.
impl FromStr for Fair {
    type Err = ChoiceFault;

    ghost from_str_gives = { λ word r. MatchResult r (λ f. word ≡ fair_name f) (λ e. (e ≡ NoSuchChooser) × ((f : FairName) → word ≢ fair_name f)) };

    fn from_str(word: &str) -> Result<Fair, ChoiceFault> {
        match word {
            "rotation" => Ok(Fair::Rotation),
            "seniority" => Ok(Fair::Seniority),
            _ => Err(ChoiceFault::NoSuchChooser),
        }
    }
}

impl fmt::Display for Fair {
    ghost output = { λ f. Some (fair_name f) };

    fn fmt<W: fmt::Write>(&self, f: &mut fmt::Formatter<W>) -> fmt::Result {
        match self {
            Fair::Rotation => write!(f, "rotation"),
            Fair::Seniority => write!(f, "seniority"),
        }
    }
}

// Its name, as words name it.
impl fmt::Display for Choice {
    ghost output = { λ c. Some (choice_text c) };

    fn fmt<W: fmt::Write>(&self, f: &mut fmt::Formatter<W>) -> fmt::Result {
        match self {
            Choice::Script(numbers) => {
                write!(f, "script")?;
                for number in numbers {
                    write!(f, " {number}")?;
                }
                Ok(())
            }
            Choice::Plain(fair) => write!(f, "{fair}"),
            Choice::Hold(k, fair) => write!(f, "hold {k} {fair}"),
        }
    }
}

// A script, by a word for each of its numbers.
fn script_of(heap: Global, words: &[&str]) -> Result<Choice, ChoiceFault>
    ensures { MatchResult result (Chooses (codes "script" ∷ texts words.now)) (Refused (codes "script" ∷ texts words.now)) }
{
    let mut numbers = Vec::new(heap);
    // a word that is no number is one fault, and a list that does not grow another
    for word in words {
        let Some(n) = two_bytes(word) else {
            return Err(ChoiceFault::NotANumber);
        };
        numbers.push(n)?;
    }
    Ok(Choice::Script(numbers))
}

/// The chooser that the words name: `script N..`, `rotation`, `seniority`, or `hold K` over one of the last two.
pub fn parse_chooser(heap: Global, words: &[&str]) -> Result<Choice, ChoiceFault>
    ensures { MatchResult result (Chooses (texts words.now)) (Refused (texts words.now)) }
{
    match words {
        ["script", numbers @ ..] => script_of(heap, numbers),
        ["hold", k, below] => {
            let k = byte(k, u8::MAX, ChoiceFault::NotANumber)?;
            Ok(Choice::Hold(k, below.parse()?))
        }
        [word] => Ok(Choice::Plain(word.parse()?)),
        _ => Err(ChoiceFault::NoSuchChooser),
    }
}
