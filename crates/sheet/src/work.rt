// Working out an expression that was checked.
ghost use Rattle.std.specs.Prelude.{◌≡◌, ◌<◌, length, IfOk, Some, Ok};
ghost use Rattle.std.specs.List.{slice_get};
ghost use Rattle.values.specs.Ops.{apply};
ghost use Rattle.values.specs.Rows.{row_of, value_of_row};
ghost use Rattle.values.specs.Values.{boolean, negate, as_truth};
ghost use Rattle.sheet.specs.Trees.{Tree, Stands, Worked};
ghost use Rattle.sheet.specs.declared.word.Term.{Term as TermT};

use crate::line::Line;
use crate::reader::Reader;
use crate::word::Term;
use std::alloc::AllocError;
use values::op::Op;
use values::row::Row;
use values::value::Value;

fn negated(part: Row) -> Row
    ensures { result ≡ row_of (boolean (negate (as_truth (value_of_row part)))) }
{
    Row::from(Value::Boolean(part.value().boolean().not()))
}

fn applied(op: Op, first: Row, second: Row) -> Row
    ensures { result ≡ row_of (apply op (value_of_row first) (value_of_row second)) }
{
    Row::from(op.apply(first.value(), second.value()))
}

impl Reader<'_> {
    // The term here, which is known to be one.
    fn known_term(&self) -> Term
        requires { (t : TermT) × (slice_get self.now.words.now self.now.at ≡ Some (Ok t)) }
        ensures exact { slice_get self.now.words.now self.now.at ≡ Some (Ok result) }
        ensures inside { self.now.at < length self.now.words.now }
    {
        match self.words.get(self.at) {
            Some(Ok(term)) => *term,
            _ => unreachable!(),
        }
    }

    // The row of the value of the expression here, behind which it moves.
    pub(crate) fn work(&mut self, lines: &mut Vec<Line>) -> Result<Row, AllocError>
        requires { (t : Tree) × Stands self.old.words.now self.old.at t }
        ensures words { self.new.words.now ≡ self.old.words.now }
        ensures worked { IfOk result (λ v. (t : Tree) → Stands self.old.words.now self.old.at t → Worked t self.old.at v self.new.at lines.old.items lines.new.items) }
    {
        let term = self.known_term();
        self.at += 1;
        match term {
            Term::Value(row) => Ok(Row::from(row.value())),
            Term::Not => {
                let part = self.work(lines)?;
                let result = negated(part);
                lines.push(Line::Not(part, result))?;
                Ok(result)
            }
            Term::Binary(op) => {
                let first = self.work(lines)?;
                let second = self.work(lines)?;
                let result = applied(op, first, second);
                lines.push(Line::Binary(op, first, second, result))?;
                Ok(result)
            }
        }
    }
}
