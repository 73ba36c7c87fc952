// The check of statements. Place and number of fronts are a pair, as in the definition: a struct would need a conversion
// in each clause.
ghost use Rattle.std.specs.Prelude.{◌≡◌, ◌≤◌, IfOk};
ghost use Rattle.files.specs.Bodies.{kinds_in, declarations_in};
ghost use Rattle.files.specs.Expressions.{check_expression};
ghost use Rattle.files.specs.Statements.{check_statement, check_test, placed as placed_at, few_fronts};

use crate::body::Body;
use answers::fault::{FaultKind, Layer, LoadFault};
use commands::command::read;
use commands::statement::StatementCommand;
use heads::checked::{ask, fault};
use values::kind::Kind;

// The most fronts that a statement can have.
const FRONTS: u8 = 8;

// Whether a part ends at the place operand of the command at `at`.
fn placed(at: usize, end: usize, place: u16) -> Result<(), LoadFault>
    ensures { result ≡ placed_at at end place }
{
    ask(
        end == place as usize,
        FaultKind::Command,
        at,
        Layer::Statement,
    )
}

fn few_fronts(at: usize, end: (usize, u8)) -> Result<(usize, u8), LoadFault>
    ensures exact { result ≡ few_fronts at end }
    ensures few { IfOk result (λ v. v.1 ≤ 8) }
{
    ask(end.1 <= FRONTS, FaultKind::Fronts, at, Layer::Statement)?;
    Ok(end)
}

impl Body<'_> {
    // A Boolean at a place.
    fn check_test(&self, at: usize, left: u8) -> Result<usize, LoadFault>
        ensures { result ≡ check_test (λ p. check_expression left self.now.file.now p (kinds_in self.now)) at }
    {
        let (end, kind) = self.check_expression(at, left)?;
        ask(
            kind == Kind::Boolean,
            FaultKind::PartKind,
            at,
            Layer::Expression,
        )?;
        Ok(end)
    }

    // The place behind the statement at `at`, and the most fronts that it can have; it may nest `left` deep.
    // One arm for each of the nine commands, which makes it longer than others.
    #[tactic(auto, using(crate::proofs::Stating::unknown, crate::proofs::Stating::too_deep, crate::proofs::Stating::statement_step))]
    pub(crate) fn check_statement(&self, at: usize, left: u8) -> Result<(usize, u8), LoadFault>
        ensures exact { result ≡ check_statement left self.now.file.now at (kinds_in self.now) (declarations_in self.now) }
        ensures few { IfOk result (λ v. v.1 ≤ 8) }
    {
        let command = read::<StatementCommand>(self.file, at).ok_or(fault(
            FaultKind::Command,
            at,
            Layer::Statement,
        ))?;
        if left == 0 {
            return Err(fault(FaultKind::Depth, at, Layer::Statement));
        }
        let end = match command {
            StatementCommand::Skip => (at + 1, 1),
            StatementCommand::Set(variable) => self.check_set(at, left - 1, variable)?,
            StatementCommand::Send(channel, message, count) => {
                self.check_send(at, left - 1, channel, message, count)?
            }
            StatementCommand::Recv(channel, message, count, list) => {
                self.check_receive(at, channel, message, count, &list)?
            }
            StatementCommand::Seq(place) => {
                let (middle, fronts) = self.check_statement(at + 3, left - 1)?;
                placed(at, middle, place)?;
                let (end, _) = self.check_statement(middle, left - 1)?;
                (end, fronts)
            }
            StatementCommand::Sel(place) => {
                let (middle, one) = self.check_statement(at + 3, left - 1)?;
                placed(at, middle, place)?;
                let (end, other) = self.check_statement(middle, left - 1)?;
                (end, one + other)
            }
            StatementCommand::Guard(place) => {
                let body = self.check_test(at + 3, left - 1)?;
                placed(at, body, place)?;
                self.check_statement(body, left - 1)?
            }
            StatementCommand::If(place, otherwise) => {
                let yes = self.check_test(at + 5, left - 1)?;
                placed(at, yes, place)?;
                let (no, _) = self.check_statement(yes, left - 1)?;
                placed(at, no, otherwise)?;
                let (end, _) = self.check_statement(no, left - 1)?;
                (end, 2)
            }
            StatementCommand::Do(place) => {
                let body = self.check_test(at + 3, left - 1)?;
                placed(at, body, place)?;
                let (end, _) = self.check_statement(body, left - 1)?;
                (end, 2)
            }
        };
        few_fronts(at, end)
    }
}
