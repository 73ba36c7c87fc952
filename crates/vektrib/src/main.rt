// A shell over the engine: one command to a line of standard input, and an answer for each.
#![tactic(auto)]

use engine::lists::Journal;
use input::{Next, next_line};
use records::record::{Record, UNKNOWN};
use records::step::Step;
use session::session::Session;
use shell::answer;

mod eval;
mod input;
mod serving;
mod shell;

// The room of the first journal.
const FIRST_ROOM: u16 = 1000;

// Answers lines over a new journal of this room, until the end of the input or a line that asks for another journal,
// whose room it hands back.
fn play(rt: &HostRuntime, session: &mut Session, room: u16) -> anyhow::Result<Option<u16>> {
    let blank = Record {
        step: Step::internal(0, 0),
        count: 0,
        values: [UNKNOWN; 4],
    };
    let mut memory = vec![in rt.alloc(); blank; room as usize]?;
    let mut journal = Journal::new(memory.as_mut_slice());
    let mut line = String::new(rt.alloc());
    // a count, since a loop that waits on input has to be seen to end
    for _ in 0..u64::MAX {
        match next_line(rt, &mut line)? {
            Next::Line => {
                if let Some(next) = answer(rt, line.as_str(), session, &mut journal)? {
                    return Ok(Some(next));
                }
            }
            Next::NotText => {}
            Next::End => return Ok(None),
        }
    }
    Ok(None)
}

// Engine and chooser stay over all journals.
fn run(rt: &HostRuntime) -> anyhow::Result<()> {
    let mut session = Session::new();
    let mut room = FIRST_ROOM;
    // a count, as above
    for _ in 0..u64::MAX {
        match play(rt, &mut session, room)? {
            Some(next) => room = next,
            None => return Ok(()),
        }
    }
    Ok(())
}

fn main(rt: HostRuntime) -> anyhow::Result<()> {
    run(&rt)
}
