// The commands of statements.
ghost use Rattle.commands.specs.Statements.{statement_command, command_size};

use crate::command::Command;

pub const SKIP: u8 = 0x20;

pub const SET: u8 = 0x21;

pub const SEND: u8 = 0x22;

pub const RECV: u8 = 0x23;

pub const SEQ: u8 = 0x24;

pub const SEL: u8 = 0x25;

pub const GUARD: u8 = 0x26;

pub const IF: u8 = 0x27;

pub const DO: u8 = 0x28;

// A command with its operands. Places are those of the second and the third part.
// A Recv has its four variables as the bytes have them: whether their number fits is checked later.
#[derive(Clone, Copy)]
pub enum StatementCommand {
    Skip,
    Set(u8),
    Send(u8, u8, u8),
    Recv(u8, u8, u8, [u8; 4]),
    Seq(u16),
    Sel(u16),
    Guard(u16),
    If(u16, u16),
    Do(u16),
}

impl Command for StatementCommand {
    ghost command = { statement_command };

    ghost size = { command_size };

    fn first(bytes: &[u8]) -> Option<StatementCommand> {
        match bytes {
            [SKIP, ..] => Some(StatementCommand::Skip),
            [SET, variable, ..] => Some(StatementCommand::Set(*variable)),
            [SEND, channel, message, count, ..] => Some(StatementCommand::Send(
                *channel, *message, *count,
            )),
            [RECV, channel, message, count, a, b, c, d, ..] => Some(StatementCommand::Recv(
                *channel,
                *message,
                *count,
                [*a, *b, *c, *d],
            )),
            [SEQ, lo, hi, ..] => Some(StatementCommand::Seq(u16::from_le_bytes([*lo, *hi]))),
            [SEL, lo, hi, ..] => Some(StatementCommand::Sel(u16::from_le_bytes([*lo, *hi]))),
            [GUARD, lo, hi, ..] => Some(StatementCommand::Guard(u16::from_le_bytes([*lo, *hi]))),
            [IF, a, b, c, d, ..] => Some(StatementCommand::If(
                u16::from_le_bytes([*a, *b]),
                u16::from_le_bytes([*c, *d]),
            )),
            [DO, lo, hi, ..] => Some(StatementCommand::Do(u16::from_le_bytes([*lo, *hi]))),
            _ => None,
        }
    }
}
