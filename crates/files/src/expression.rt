// The check of expressions. Place and kind are a pair, as in the definition: a struct would need a conversion in each clause.
ghost use Rattle.std.specs.Prelude.{◌≡◌, ◌+◌, ◌^◌, ◌<◌};
ghost use Rattle.commands.specs.Expressions.{leaf_size};
ghost use Rattle.files.specs.Bodies.{kinds_in};
ghost use Rattle.files.specs.Expressions.{check_expression, leaf_kind, check_leaf, first_fits, both_fit, one_fits};

use crate::body::Body;
use answers::fault::{FaultKind, Layer, LoadFault};
use commands::command::read;
use commands::expression::{ExpressionCommand, Leaf};
use heads::checked::{ask, fault};
use values::kind::Kind;
use values::op::Op;

// Whether the first of two parts has a kind that fits and ends at the place operand.
fn first_fits(op: Op, place: u16, at: usize, first: (usize, Kind)) -> Result<(), LoadFault>
    requires { at + 3 < 2 ^ 64 }
    ensures { result ≡ first_fits op place at first }
{
    ask(
        first.1.is_awaited(op.part_kind()),
        FaultKind::PartKind,
        at + 3,
        Layer::Expression,
    )?;
    ask(
        first.0 == place as usize,
        FaultKind::Command,
        at,
        Layer::Expression,
    )
}

// Whether the second part has the kind of the first.
fn both_fit(op: Op, first: (usize, Kind), second: (usize, Kind)) -> Result<(usize, Kind), LoadFault>
    ensures { result ≡ both_fit op first second }
{
    ask(
        first.1 == second.1,
        FaultKind::PartKind,
        first.0,
        Layer::Expression,
    )?;
    Ok((second.0, op.gives()))
}

// Whether the part of a NOT is a Boolean.
fn one_fits(at: usize, part: (usize, Kind)) -> Result<(usize, Kind), LoadFault>
    requires { at + 1 < 2 ^ 64 }
    ensures { result ≡ one_fits at part }
{
    ask(
        part.1 == Kind::Boolean,
        FaultKind::PartKind,
        at + 1,
        Layer::Expression,
    )?;
    Ok((part.0, Kind::Boolean))
}

impl Body<'_> {
    // The kind of an expression without parts; none where its operand is out of bounds or its variable absent.
    fn leaf_kind(&self, leaf: Leaf) -> Option<Kind>
        ensures { result ≡ leaf_kind (kinds_in self.now) leaf }
    {
        match leaf {
            Leaf::Int(_) | Leaf::Iunk => Some(Kind::Integer),
            Leaf::Bool(truth) => (truth < 3).then_some(Kind::Boolean),
            Leaf::Var(variable) => self.scope.variables.kind(self.file, variable),
        }
    }

    fn check_leaf(&self, leaf: Leaf, at: usize) -> Result<(usize, Kind), LoadFault>
        requires { at + leaf_size leaf < 2 ^ 64 }
        ensures { result ≡ check_leaf (kinds_in self.now) at leaf }
    {
        let kind = self
            .leaf_kind(leaf)
            .ok_or(fault(FaultKind::Operand, at, Layer::Expression))?;
        Ok((at + leaf.size(), kind))
    }

    // The place behind the expression at `at` and its kind; it may nest `left` deep.
    #[tactic(auto, using(crate::proofs::Expressing::unknown, crate::proofs::Expressing::too_deep, crate::proofs::Expressing::expression_step))]
    pub(crate) fn check_expression(&self, at: usize, left: u8) -> Result<(usize, Kind), LoadFault>
        ensures { result ≡ check_expression left self.now.file.now at (kinds_in self.now) }
    {
        let command = read::<ExpressionCommand>(self.file, at).ok_or(fault(
            FaultKind::Command,
            at,
            Layer::Expression,
        ))?;
        if left == 0 {
            return Err(fault(FaultKind::Depth, at, Layer::Expression));
        }
        match command {
            ExpressionCommand::Leaf(leaf) => self.check_leaf(leaf, at),
            ExpressionCommand::Binary(op, place) => {
                let first = self.check_expression(at + 3, left - 1)?;
                first_fits(op, place, at, first)?;
                let second = self.check_expression(first.0, left - 1)?;
                both_fit(op, first, second)
            }
            ExpressionCommand::Not => {
                let only = self.check_expression(at + 1, left - 1)?;
                one_fits(at, only)
            }
        }
    }
}
