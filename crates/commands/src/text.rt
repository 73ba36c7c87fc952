// Commands as text.
ghost use Rattle.std.specs.Prelude.{Some};
ghost use Rattle.std.specs.List.{flat_map};
ghost use Rattle.commands.specs.Texts.{leaf_text, expression_text, spaced, statement_text, channels_text, behaviour_text};

use crate::behaviour::BehaviourCommand;
use crate::expression::{ExpressionCommand, Leaf};
use crate::set::in_set;
use crate::statement::StatementCommand;
use std::fmt;
use values::few::Few;

impl fmt::Display for Leaf {
    ghost output = { λ l. Some (leaf_text l) };

    fn fmt<W: fmt::Write>(&self, f: &mut fmt::Formatter<W>) -> fmt::Result {
        match self {
            Leaf::Int(number) => write!(f, "INT {number}"),
            Leaf::Bool(0) => write!(f, "BOOL false"),
            Leaf::Bool(1) => write!(f, "BOOL true"),
            Leaf::Bool(_) => write!(f, "BOOL ?b"),
            Leaf::Iunk => write!(f, "IUNK"),
            Leaf::Var(variable) => write!(f, "VAR {variable}"),
        }
    }
}

// Without its place.
impl fmt::Display for ExpressionCommand {
    ghost output = { λ c. Some (expression_text c) };

    fn fmt<W: fmt::Write>(&self, f: &mut fmt::Formatter<W>) -> fmt::Result {
        match self {
            ExpressionCommand::Leaf(leaf) => write!(f, "{leaf}"),
            ExpressionCommand::Binary(op, _) => write!(f, "{op}"),
            ExpressionCommand::Not => write!(f, "NOT"),
        }
    }
}

// Numbers with a space before each.
#[derive(Clone, Copy)]
pub struct Spaced<'a>(pub &'a [u8]);

impl fmt::Display for Spaced<'_> {
    ghost output = { λ s. Some (flat_map spaced s.0.now) };

    fn fmt<W: fmt::Write>(&self, f: &mut fmt::Formatter<W>) -> fmt::Result {
        for number in self.0 {
            write!(f, " {number}")?;
        }
        Ok(())
    }
}

// Without its place and its parts.
impl fmt::Display for StatementCommand {
    ghost output = { λ c. Some (statement_text c) };

    fn fmt<W: fmt::Write>(&self, f: &mut fmt::Formatter<W>) -> fmt::Result {
        match self {
            StatementCommand::Skip => write!(f, "SKIP"),
            StatementCommand::Set(variable) => write!(f, "SET {variable}"),
            StatementCommand::Send(channel, message, _) => {
                write!(f, "SEND channel {channel} message {message}")
            }
            StatementCommand::Recv(channel, message, count, variables) => {
                let used = Few::first(*variables, *count as usize);
                let into = Spaced(used.as_slice());
                write!(f, "RECV channel {channel} message {message} into{into}")
            }
            StatementCommand::Seq(_) => write!(f, "SEQ"),
            StatementCommand::Sel(_) => write!(f, "SEL"),
            StatementCommand::Guard(_) => write!(f, "GUARD"),
            StatementCommand::If(..) => write!(f, "IF"),
            StatementCommand::Do(_) => write!(f, "DO"),
        }
    }
}

// The channels of a set, ascending, with a space before each.
#[derive(Clone, Copy)]
struct Channels(u32);

impl fmt::Display for Channels {
    ghost output = { λ s. Some (channels_text s.0) };

    fn fmt<W: fmt::Write>(&self, f: &mut fmt::Formatter<W>) -> fmt::Result {
        for channel in 0..32u8 {
            if in_set(self.0, channel) {
                write!(f, " {channel}")?;
            }
        }
        Ok(())
    }
}

// Without its place and its parts.
impl fmt::Display for BehaviourCommand {
    ghost output = { λ c. Some (behaviour_text c) };

    fn fmt<W: fmt::Write>(&self, f: &mut fmt::Formatter<W>) -> fmt::Result {
        match self {
            BehaviourCommand::Proc(class) => write!(f, "PROC class {class}"),
            BehaviourCommand::Par(_) => write!(f, "PAR"),
            BehaviourCommand::Hide(set) => {
                let channels = Channels(*set);
                write!(f, "HIDE{channels}")
            }
            BehaviourCommand::Rename(from, to) => write!(f, "RENAME {from} to {to}"),
        }
    }
}
