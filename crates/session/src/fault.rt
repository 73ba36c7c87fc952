// Why a line asks a session for nothing.
ghost use Rattle.session.specs.Faults.{request_fault_text};

use inspect::digits::HexFault;
use rota::choice::ChoiceFault;
use std::fmt;

/// Why words ask for nothing: mostly by the command that they name, whose operands they do not have.
#[derive(Clone, Copy)]
pub enum RequestFault<'a> {
    /// The first word names no command.
    NoSuchCommand,
    /// There is no memory for what the words write.
    NoMemory,
    /// `load`: a fault in the hexadecimal digits.
    Hex(HexFault<'a>),
    /// `list`: the words are no room.
    List,
    /// `take`: the words are no step with values behind it.
    Take,
    /// `run`: the words are no budget with, at most, a room behind it.
    Run,
    /// `chooser`: the words name no chooser.
    Chooser(ChoiceFault),
    /// `journal`: the words are no room.
    Journal,
    /// `state`: there are words behind it.
    State,
}

impl fmt::Display for RequestFault<'_> {
    ghost output = { λ x. request_fault_text x };

    fn fmt<W: fmt::Write>(&self, f: &mut fmt::Formatter<W>) -> fmt::Result {
        match self {
            RequestFault::NoSuchCommand => write!(f, "no such command"),
            RequestFault::NoMemory => write!(f, "there is not enough memory for this line"),
            RequestFault::Hex(fault) => write!(f, "{fault}"),
            RequestFault::List => write!(f, "expected list [ROOM], a room from 0 to 65535"),
            RequestFault::Take => {
                write!(
                    f,
                    "expected take and seven numbers from 0 to 255, then values"
                )
            }
            RequestFault::Run => write!(
                f,
                "expected run BUDGET [ROOM], a budget from 0 to 4294967295 and a room from 0 to 65535"
            ),
            RequestFault::Chooser(fault) => write!(f, "{fault}"),
            RequestFault::Journal => write!(f, "expected journal [ROOM], a room from 0 to 65535"),
            RequestFault::State => write!(f, "expected state and nothing else"),
        }
    }
}
