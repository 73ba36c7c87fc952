// A trial session, read from lines.
use anyhow::Context;
use calling::call::Call;
use inspect::digits::bytes_of;
use records::step::Step;
use rota::choice::{Choice, Fair, parse_chooser};
use rota::words::{number, two_bytes};
use session::request::{Request, parse_request};
use std::alloc::Global;
use values::row::Row;

/// A call with what it is made with, which it owns.
#[derive(Drop)]
pub(crate) enum Made {
    Load { file: Vec<u8> },
    List,
    Take { step: Step, values: Vec<Row> },
    Run { budget: u32 },
    RunScript { budget: u32, numbers: Vec<u16> },
}

impl Made {
    /// The call itself.
    pub(crate) fn call(&self) -> Call<'_> {
        match self {
            Made::Load { file } => Call::Load {
                file: file.as_slice(),
            },
            Made::List => Call::List,
            Made::Take { step, values } => Call::Take {
                step: *step,
                values: values.as_slice(),
            },
            Made::Run { budget } => Call::Run { budget: *budget },
            Made::RunScript { budget, numbers } => Call::RunScript {
                budget: *budget,
                numbers: numbers.as_slice(),
            },
        }
    }
}

/// The rooms of the step table, the journal and the list of answers.
#[derive(Clone, Copy)]
pub(crate) struct Rooms {
    pub table: u16,
    pub journal: u16,
    pub answers: u16,
}

/// The chooser that is followed, the rooms, the calls, and whether what the table holds at the end is open.
#[derive(Drop)]
pub(crate) struct Trial {
    pub chooser: Choice,
    pub rooms: Rooms,
    pub calls: Vec<Made>,
    pub open: bool,
}

// A run under a script: its budget and its numbers.
fn script(heap: Global, budget: &str, numbers: &[&str]) -> anyhow::Result<Made> {
    let budget = number(budget, u32::MAX).context("a budget is wrong")?;
    let mut script = Vec::new(heap);
    for word in numbers {
        script.push(two_bytes(word).context("a number of a script is wrong")?)?;
    }
    Ok(Made::RunScript {
        budget,
        numbers: script,
    })
}

// A load or a take, which is written as a session's request is.
fn request(heap: Global, words: &[&str]) -> anyhow::Result<Made> {
    match parse_request(heap, words).ok().context("a call is wrong")? {
        Request::Load { file } => Ok(Made::Load { file }),
        Request::Take { step, values } => Ok(Made::Take { step, values }),
        _ => None.context("a line is no call of a trial"),
    }
}

impl Trial {
    /// No calls, under the chooser and with the rooms of a session.
    pub(crate) fn new(heap: Global) -> Trial {
        Trial {
            chooser: Choice::Hold(3, Fair::Seniority),
            rooms: Rooms {
                table: 1088,
                journal: 1000,
                answers: 1000,
            },
            calls: Vec::new(heap),
            open: false,
        }
    }

    /// Reads one line; whether it ends the trial.
    pub(crate) fn read_line(&mut self, heap: Global, words: &[&str]) -> anyhow::Result<bool> {
        match words {
            ["session", chooser @ ..] => {
                self.chooser = parse_chooser(heap, chooser)
                    .ok()
                    .context("a chooser is wrong")?;
            }
            ["rooms", table, journal, answers] => {
                self.rooms = Rooms {
                    table: two_bytes(table).context("a room is wrong")?,
                    journal: two_bytes(journal).context("a room is wrong")?,
                    answers: two_bytes(answers).context("a room is wrong")?,
                };
            }
            ["list"] => self.calls.push(Made::List)?,
            ["run", budget] => self.calls.push(Made::Run {
                budget: number(budget, u32::MAX).context("a budget is wrong")?,
            })?,
            ["script", budget, numbers @ ..] => self.calls.push(script(heap, budget, numbers)?)?,
            ["table", "open"] => self.open = true,
            ["end"] => return Ok(true),
            _ => self.calls.push(request(heap, words)?)?,
        }
        Ok(false)
    }
}
