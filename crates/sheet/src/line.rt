// One operation as it is worked out.
ghost use Rattle.std.specs.Prelude.{Some};
ghost use Rattle.sheet.specs.Lines.{line_text};

use std::fmt;
use values::op::Op;
use values::row::Row;

#[derive(Clone, Copy, PartialEq, Eq, Debug)]
pub enum Line {
    Not(Row, Row),
    Binary(Op, Row, Row, Row),
}

impl fmt::Display for Line {
    ghost output = { λ l. Some (line_text l) };

    fn fmt<W: fmt::Write>(&self, f: &mut fmt::Formatter<W>) -> fmt::Result {
        match *self {
            Line::Not(part, result) => {
                let a = part.value();
                let r = result.value();
                write!(f, "NOT {a} = {r}")
            }
            Line::Binary(op, first, second, result) => {
                let a = first.value();
                let b = second.value();
                let r = result.value();
                write!(f, "{op} {a} {b} = {r}")
            }
        }
    }
}
