// Why steps are not listed or run, and why a step is not taken.
ghost use Rattle.std.specs.Prelude.{◌≡◌, Some};
ghost use Rattle.answers.specs.Numbers.{room_number, take_number};
ghost use Rattle.answers.specs.Texts.{refused_text};

use std::error::Error;
use std::fmt;

/// A step table with room for fewer steps than a model can have.
#[derive(Clone, Copy, PartialEq, Eq, Debug)]
pub struct NoRoom;

impl From<NoRoom> for u8 {
    ghost from_gives = { λ x n. n ≡ room_number x };

    fn from(_refusal: NoRoom) -> u8 {
        12
    }
}

impl fmt::Display for NoRoom {
    ghost output = { λ x. Some (refused_text (room_number x)) };

    fn fmt<W: fmt::Write>(&self, f: &mut fmt::Formatter<W>) -> fmt::Result {
        let number = u8::from(*self);
        write!(f, "refused {number}")
    }
}

impl Error for NoRoom {}

/// Why a step is not taken.
#[derive(Clone, Copy, PartialEq, Eq, Debug)]
pub enum TakeRefusal {
    /// The step is not listed now.
    NotListed,
    /// The values given do not fit in count or kinds.
    Values,
    /// The journal has no room for the record.
    JournalFull,
}

impl From<TakeRefusal> for u8 {
    ghost from_gives = { λ x n. n ≡ take_number x };

    fn from(refusal: TakeRefusal) -> u8 {
        match refusal {
            TakeRefusal::NotListed => 21,
            TakeRefusal::Values => 11,
            TakeRefusal::JournalFull => 22,
        }
    }
}

impl fmt::Display for TakeRefusal {
    ghost output = { λ x. Some (refused_text (take_number x)) };

    fn fmt<W: fmt::Write>(&self, f: &mut fmt::Formatter<W>) -> fmt::Result {
        let number = u8::from(*self);
        write!(f, "refused {number}")
    }
}

impl Error for TakeRefusal {}
