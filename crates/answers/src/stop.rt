// Why a run stops.
ghost use Rattle.std.specs.Prelude.{◌≡◌, Some};
ghost use Rattle.answers.specs.Numbers.{stop_number};
ghost use Rattle.answers.specs.Texts.{stop_text};

use std::fmt;

/// Why a run stops: the stop word that it answers beside its count.
#[derive(Clone, Copy, PartialEq, Eq, Debug)]
pub enum Stop {
    /// As many steps were taken as the budget allows.
    BudgetSpent,
    /// No closed step is listed.
    NoClosedStep,
    /// The chooser declined.
    Declined,
    /// The journal has no room for another record.
    JournalFull,
}

impl From<Stop> for u8 {
    ghost from_gives = { λ x n. n ≡ stop_number x };

    fn from(stop: Stop) -> u8 {
        match stop {
            Stop::BudgetSpent => 0,
            Stop::NoClosedStep => 1,
            Stop::Declined => 2,
            Stop::JournalFull => 3,
        }
    }
}

impl fmt::Display for Stop {
    ghost output = { λ x. Some (stop_text x) };

    fn fmt<W: fmt::Write>(&self, f: &mut fmt::Formatter<W>) -> fmt::Result {
        let number = u8::from(*self);
        write!(f, "stop {number}")
    }
}
