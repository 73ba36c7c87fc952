// What is wrong with an expression: at which word, and what was expected there.
ghost use Rattle.std.specs.Prelude.{◌≡◌, Some};
ghost use Rattle.sheet.specs.Faults.{expected_of, expected_text};

use std::fmt;
use values::kind::Kind;

#[derive(Clone, Copy, PartialEq, Eq, Debug)]
pub enum Expected {
    Integer,
    Boolean,
    Value,
    Word,
    Number,
    FewerLevels,
    End,
}

// Words are counted from 1.
#[derive(Clone, Copy, PartialEq, Eq, Debug)]
pub struct Fault {
    pub word: usize,
    pub expected: Expected,
}

impl Expected {
    // A part of the awaited kind; `None` awaits either.
    pub fn part(awaited: Option<Kind>) -> Expected
        ensures { result ≡ expected_of awaited }
    {
        match awaited {
            Some(Kind::Integer) => Expected::Integer,
            Some(Kind::Boolean) => Expected::Boolean,
            None => Expected::Value,
        }
    }
}

impl Expected {
    // The text itself: to write it can fail, to have it can not.
    pub fn text(self) -> &'static str
        ensures { result.now ≡ expected_text self }
    {
        match self {
            Expected::Integer => "an Integer",
            Expected::Boolean => "a Boolean",
            Expected::Value => "a value",
            Expected::Word => "an operation or a value",
            Expected::Number => "a number from -2147483648 to 2147483647",
            Expected::FewerLevels => "at most 32 levels",
            Expected::End => "the end of the line",
        }
    }
}

impl fmt::Display for Expected {
    ghost output = { λ e. Some (expected_text e) };

    fn fmt<W: fmt::Write>(&self, f: &mut fmt::Formatter<W>) -> fmt::Result {
        f.write_str(self.text())
    }
}
