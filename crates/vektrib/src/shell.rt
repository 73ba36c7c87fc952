// The commands, by name.
use crate::eval::eval;
use crate::serving::rota_of;
use engine::lists::Journal;
use inspect::check::check;
use inspect::fronts::fronts;
use session::fault::RequestFault;
use session::request::{Request, parse_request};
use session::session::Session;
use show::show::show_words;
use starts::opening::steps;

// What `help` prints.
const HELP: [&str; 30] = [
    "help              lists the commands",
    "eval EXPRESSION   works out an expression in prefix form, as eval ADD 1 MUL 2 3",
    "                  operations: ADD SUB MUL DIV LESS SAME AND OR NOT",
    "                  values: numbers, true, false, ?i and ?b for unknown ones",
    "check HEX         says whether a model file is admitted, or its first fault",
    "show HEX          prints an admitted file as indented text, each command with its place",
    "fronts HEX        says what a fresh process of each class of an admitted file can do first",
    "steps HEX         lists the steps that an admitted file permits at its start, seven numbers each",
    "rota CHOOSER      draws up who is served at each turn; lines of closed steps follow,",
    "                  seven numbers each, a blank line ends a turn, and end the rota",
    "                  choosers: script N.., rotation, seniority, hold K rotation, hold K seniority",
    "load HEX          puts the model of an admitted file into the session's engine, or says why not",
    "list [ROOM]       lists the steps that are permitted now, seven numbers each;",
    "                  ROOM is that of the step table, 1088 where it is not given",
    "take STEP VALUE.. takes one of these steps; an outside receive brings the values of its variables",
    "run BUDGET [ROOM] takes closed steps that the chooser picks, and says how many, and why it stopped:",
    "                  0 the budget is spent, 1 no step is closed, 2 the chooser declines,",
    "                  3 the journal is full",
    "chooser CHOOSER   has runs ask this chooser from then on; at first hold 3 seniority",
    "journal [ROOM]    prints the steps that were taken, seven numbers each, with a count of values",
    "                  and the values; or begins a new journal with ROOM for so many, at first 1000",
    "state             says of each process the places of the statements that remain, and its variables",
    "a STEP is seven numbers:",
    "  kind            0 internal, 1 meeting, 2 outside send, 3 outside receive",
    "  process         from 0, in file order; in a meeting the one that sends",
    "  front           the number of the process's front",
    "  partner         in a meeting the process that receives, and",
    "  partner's front the number of its front",
    "  channel         the one on which the exchange arrives, and",
    "  message         its message; 255 stands in each field that does not apply",
];

fn help(rt: &HostRuntime, rest: &[&str]) -> anyhow::Result<()> {
    if let Some(word) = rest.first() {
        println!(rt; "wrong: word 1: expected the end of the line, found '{word}'")?;
        return Ok(());
    }
    for line in HELP {
        rt.println(line)?;
    }
    Ok(())
}

// A line that asks the session for something, or that names no command. Where it asks for a new journal the answer is
// its room.
fn ask(
    rt: &HostRuntime,
    words: &[&str],
    session: &mut Session,
    journal: &mut Journal<'_>,
) -> anyhow::Result<Option<u16>> {
    match parse_request(rt.alloc(), words) {
        Ok(request) => {
            let next = match &request {
                Request::NewJournal { room } => Some(*room),
                _ => None,
            };
            rt.println(session.answer(rt.alloc(), request, journal)?)?;
            Ok(next)
        }
        Err(RequestFault::NoSuchCommand) => {
            if let Some(name) = words.first() {
                println!(rt; "wrong: unknown command '{name}'; help lists the commands")?;
            }
            Ok(None)
        }
        Err(fault) => {
            println!(rt; "wrong: {fault}")?;
            Ok(None)
        }
    }
}

// Answers one line. Blank lines and lines that begin with # have no answer.
// Where the line asks for a new journal, its room comes back.
pub fn answer(
    rt: &HostRuntime,
    line: &str,
    session: &mut Session,
    journal: &mut Journal<'_>,
) -> anyhow::Result<Option<u16>> {
    let words: Vec<&str> = line.split_ascii_whitespace().collect(rt.alloc())?;
    let Some(command) = words.first() else {
        return Ok(None);
    };
    match *command {
        "help" => help(rt, &words[1..])?,
        "eval" => eval(rt, &words[1..])?,
        "check" => check(rt, &words[1..])?,
        "show" => show_words(rt, &words[1..])?,
        "fronts" => fronts(rt, &words[1..])?,
        "steps" => steps(rt, &words[1..])?,
        "rota" => rota_of(rt, &words[1..])?,
        name => {
            if !name.starts_with('#') {
                return ask(rt, words.as_slice(), session, journal);
            }
        }
    }
    Ok(None)
}
