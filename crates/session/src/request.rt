// What a line asks of a session, read from its words.
ghost use Rattle.std.specs.Prelude.{◌∷◌, codes, MatchResult};
ghost use Rattle.rota.specs.Words.{texts};
ghost use Rattle.session.specs.Requests.{Asks, Refused};

use crate::fault::RequestFault;
use crate::operands::{ValuesFault, budget_room, journal_room, rows_of, step_of, table_room};
use inspect::digits::{HexFault, bytes_of};
use records::step::Step;
use rota::choice::{Choice, ChoiceFault, parse_chooser};
use std::alloc::Global;
use values::row::Row;

/// What a line asks of a session.
#[derive(Drop)]
pub enum Request {
    /// A file to load.
    Load { file: Vec<u8> },
    /// The steps of the model, with a step table of this room.
    List { room: u16 },
    /// A step to take, with the values that an outside receive brings.
    Take { step: Step, values: Vec<Row> },
    /// A run of at most so many steps, with a step table of this room.
    Run { budget: u32, room: u16 },
    /// Another chooser for the runs from then on.
    Choose { choice: Choice },
    /// The records of the journal.
    Journal,
    /// A new, empty journal.
    NewJournal { room: u16 },
    /// What remains of the processes, and their variables.
    State,
}

fn parse_load<'a>(heap: Global, words: &[&'a str]) -> Result<Request, RequestFault<'a>>
    ensures { MatchResult result (Asks (codes "load" ∷ texts words.now)) (Refused (codes "load" ∷ texts words.now)) }
{
    match bytes_of(heap, words) {
        Ok(file) => Ok(Request::Load { file }),
        Err(HexFault::Memory(_)) => Err(RequestFault::NoMemory),
        Err(fault) => Err(RequestFault::Hex(fault)),
    }
}

fn parse_list<'a>(words: &[&'a str]) -> Result<Request, RequestFault<'a>>
    ensures { MatchResult result (Asks (codes "list" ∷ texts words.now)) (Refused (codes "list" ∷ texts words.now)) }
{
    match table_room(words) {
        Some(room) => Ok(Request::List { room }),
        None => Err(RequestFault::List),
    }
}

fn parse_take<'a>(heap: Global, words: &[&'a str]) -> Result<Request, RequestFault<'a>>
    ensures { MatchResult result (Asks (codes "take" ∷ texts words.now)) (Refused (codes "take" ∷ texts words.now)) }
{
    let Ok(step) = step_of(words) else {
        return Err(RequestFault::Take);
    };
    match rows_of(heap, &words[7..]) {
        Ok(values) => Ok(Request::Take { step, values }),
        Err(ValuesFault::NotAValue) => Err(RequestFault::Take),
        Err(ValuesFault::NoMemory) => Err(RequestFault::NoMemory),
    }
}

fn parse_run<'a>(words: &[&'a str]) -> Result<Request, RequestFault<'a>>
    ensures { MatchResult result (Asks (codes "run" ∷ texts words.now)) (Refused (codes "run" ∷ texts words.now)) }
{
    match budget_room(words) {
        Some((budget, room)) => Ok(Request::Run { budget, room }),
        None => Err(RequestFault::Run),
    }
}

fn parse_choose<'a>(heap: Global, words: &[&'a str]) -> Result<Request, RequestFault<'a>>
    ensures { MatchResult result (Asks (codes "chooser" ∷ texts words.now)) (Refused (codes "chooser" ∷ texts words.now)) }
{
    match parse_chooser(heap, words) {
        Ok(choice) => Ok(Request::Choose { choice }),
        Err(fault) => Err(RequestFault::Chooser(fault)),
    }
}

fn parse_journal<'a>(words: &[&'a str]) -> Result<Request, RequestFault<'a>>
    ensures { MatchResult result (Asks (codes "journal" ∷ texts words.now)) (Refused (codes "journal" ∷ texts words.now)) }
{
    if words.is_empty() {
        return Ok(Request::Journal);
    }
    match journal_room(words) {
        Some(room) => Ok(Request::NewJournal { room }),
        None => Err(RequestFault::Journal),
    }
}

fn parse_state<'a>(words: &[&'a str]) -> Result<Request, RequestFault<'a>>
    ensures { MatchResult result (Asks (codes "state" ∷ texts words.now)) (Refused (codes "state" ∷ texts words.now)) }
{
    if words.is_empty() {
        Ok(Request::State)
    } else {
        Err(RequestFault::State)
    }
}

fn parse_command<'a>(
    heap: Global,
    command: &str,
    words: &[&'a str],
) -> Result<Request, RequestFault<'a>>
    ensures { MatchResult result (Asks (command.now ∷ texts words.now)) (Refused (command.now ∷ texts words.now)) }
{
    match command {
        "load" => parse_load(heap, words),
        "list" => parse_list(words),
        "take" => parse_take(heap, words),
        "run" => parse_run(words),
        "chooser" => parse_choose(heap, words),
        "journal" => parse_journal(words),
        "state" => parse_state(words),
        _ => Err(RequestFault::NoSuchCommand),
    }
}

/// What the words of a line ask for, the first of them a command's name.
pub fn parse_request<'a>(heap: Global, words: &[&'a str]) -> Result<Request, RequestFault<'a>>
    ensures { MatchResult result (Asks (texts words.now)) (Refused (texts words.now)) }
{
    match words {
        [command, rest @ ..] => parse_command(heap, command, rest),
        [] => Err(RequestFault::NoSuchCommand),
    }
}
