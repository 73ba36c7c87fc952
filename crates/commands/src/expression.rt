// The commands of expressions.
ghost use Rattle.std.specs.Prelude.{◌≡◌};
ghost use Rattle.commands.specs.Expressions.{expression_command, command_size, leaf_size};

use crate::command::Command;
use values::op::Op;

pub const INT: u8 = 0x01;

pub const BOOL: u8 = 0x02;

pub const IUNK: u8 = 0x03;

pub const VAR: u8 = 0x04;

pub const ADD: u8 = 0x05;

pub const SUB: u8 = 0x06;

pub const MUL: u8 = 0x07;

pub const DIV: u8 = 0x08;

pub const LESS: u8 = 0x09;

pub const SAME: u8 = 0x0a;

pub const AND: u8 = 0x0b;

pub const OR: u8 = 0x0c;

pub const NOT: u8 = 0x0d;

// An expression without parts. The operand of BOOL is the byte that the file has; which bytes are fit is checked later.
#[derive(Clone, Copy)]
pub enum Leaf {
    Int(i32),
    Bool(u8),
    Iunk,
    Var(u8),
}

// A command with its operands; `Binary` has the place of its second part.
#[derive(Clone, Copy)]
pub enum ExpressionCommand {
    Leaf(Leaf),
    Binary(Op, u16),
    Not,
}

impl Leaf {
    // The bytes that it takes.
    pub fn size(self) -> usize
        ensures { result ≡ leaf_size self }
    {
        match self {
            Leaf::Int(_) => 5,
            Leaf::Bool(_) | Leaf::Var(_) => 2,
            Leaf::Iunk => 1,
        }
    }
}

impl Command for ExpressionCommand {
    ghost command = { expression_command };

    ghost size = { command_size };

    // One arm for each first byte, as the format lists them.
    fn first(bytes: &[u8]) -> Option<ExpressionCommand> {
        match bytes {
            [INT, a, b, c, d, ..] => Some(ExpressionCommand::Leaf(Leaf::Int(i32::from_le_bytes([
                *a, *b, *c, *d,
            ])))),
            [BOOL, truth, ..] => Some(ExpressionCommand::Leaf(Leaf::Bool(*truth))),
            [IUNK, ..] => Some(ExpressionCommand::Leaf(Leaf::Iunk)),
            [VAR, variable, ..] => Some(ExpressionCommand::Leaf(Leaf::Var(*variable))),
            [ADD, lo, hi, ..] => Some(ExpressionCommand::Binary(
                Op::Add,
                u16::from_le_bytes([*lo, *hi]),
            )),
            [SUB, lo, hi, ..] => Some(ExpressionCommand::Binary(
                Op::Sub,
                u16::from_le_bytes([*lo, *hi]),
            )),
            [MUL, lo, hi, ..] => Some(ExpressionCommand::Binary(
                Op::Mul,
                u16::from_le_bytes([*lo, *hi]),
            )),
            [DIV, lo, hi, ..] => Some(ExpressionCommand::Binary(
                Op::Div,
                u16::from_le_bytes([*lo, *hi]),
            )),
            [LESS, lo, hi, ..] => Some(ExpressionCommand::Binary(
                Op::Less,
                u16::from_le_bytes([*lo, *hi]),
            )),
            [SAME, lo, hi, ..] => Some(ExpressionCommand::Binary(
                Op::Same,
                u16::from_le_bytes([*lo, *hi]),
            )),
            [AND, lo, hi, ..] => Some(ExpressionCommand::Binary(
                Op::And,
                u16::from_le_bytes([*lo, *hi]),
            )),
            [OR, lo, hi, ..] => Some(ExpressionCommand::Binary(
                Op::Or,
                u16::from_le_bytes([*lo, *hi]),
            )),
            [NOT, ..] => Some(ExpressionCommand::Not),
            _ => None,
        }
    }
}
