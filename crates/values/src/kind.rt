// The two kinds of values.
ghost use Rattle.std.specs.Prelude.{◌≡◌, Some};
ghost use Rattle.values.specs.Kinds.{kind_number, kind_name, ReadsKind, awaited};

use std::fmt;

#[derive(Clone, Copy, PartialEq, Eq, Debug)]
pub enum Kind {
    Integer,
    Boolean,
}

// A number that stands for no kind.
#[derive(Clone, Copy, PartialEq, Eq, Debug)]
pub struct NoKind(pub u8);

// The number that stands for the kind in files and rows.
impl From<Kind> for u8 {
    ghost from_gives = { λ k n. n ≡ kind_number k };

    fn from(kind: Kind) -> u8 {
        match kind {
            Kind::Integer => 1,
            Kind::Boolean => 2,
        }
    }
}

impl TryFrom<u8> for Kind {
    type Error = NoKind;

    ghost try_from_gives = { ReadsKind };

    fn try_from(number: u8) -> Result<Kind, NoKind> {
        match number {
            1 => Ok(Kind::Integer),
            2 => Ok(Kind::Boolean),
            _ => Err(NoKind(number)),
        }
    }
}

impl fmt::Display for Kind {
    ghost output = { λ k. Some (kind_name k) };

    fn fmt<W: fmt::Write>(&self, f: &mut fmt::Formatter<W>) -> fmt::Result {
        f.write_str(match self {
            Kind::Integer => "Integer",
            Kind::Boolean => "Boolean",
        })
    }
}

impl Kind {
    // Whether it is the awaited kind; `None` awaits either.
    pub fn is_awaited(self, wanted: Option<Kind>) -> bool
        ensures { result ≡ awaited wanted self }
    {
        wanted.is_none_or(|kind| kind == self)
    }
}
