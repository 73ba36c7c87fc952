// Plays a trial session, and prints what came of it.
use crate::trial::{Made, Trial};
use anyhow::Context;
use calling::call::{Answer, Call};
use calling::performing::perform_all;
use choosers::chooser::FairChooser;
use choosers::hold::Hold;
use choosers::rotation::Rotation;
use choosers::seniority::Seniority;
use engine::engine::Engine;
use engine::lists::{Journal, StepTable};
use records::list::RecordList;
use records::record::Record;
use records::step::Step;
use records::texts::Entries;
use rota::choice::{Choice, Fair};
use session::state::State;
use std::alloc::Global;

// One line for what a call answered; what a list wrote and a take entered is seen at the end.
fn print_answer(rt: &HostRuntime, answer: Answer) -> anyhow::Result<()> {
    match answer {
        Answer::Loaded(Ok(())) => println!(rt; "loaded")?,
        Answer::Loaded(Err(fault)) => println!(rt; "{fault}")?,
        Answer::Listed(Ok(())) => println!(rt; "listed")?,
        Answer::Listed(Err(refusal)) => println!(rt; "{refusal}")?,
        Answer::Taken(Ok(())) => println!(rt; "took")?,
        Answer::Taken(Err(refusal)) => println!(rt; "{refusal}")?,
        Answer::Ran(Ok((count, stop))) => println!(rt; "ran {count} {stop}")?,
        Answer::Ran(Err(refusal)) => println!(rt; "{refusal}")?,
    }
    Ok(())
}

// What the step table holds in the end; nothing is said of it after an accepted run.
fn print_table(rt: &HostRuntime, table: &StepTable<'_>, open: bool) -> anyhow::Result<()> {
    if open {
        println!(rt; "table open")?;
        return Ok(());
    }
    println!(rt; "table {}", table.count())?;
    for step in table.all() {
        println!(rt; "{step}")?;
    }
    Ok(())
}

// What the calls of a trial left: answers, table, journal and processes.
fn print_end(
    rt: &HostRuntime,
    answers: &[Answer],
    table: &StepTable<'_>,
    open: bool,
    journal: &[Record],
    engine: &Engine,
) -> anyhow::Result<()> {
    for answer in answers {
        print_answer(rt, *answer)?;
    }
    print_table(rt, table, open)?;
    println!(rt; "{}", Entries(journal))?;
    println!(rt; "{}", State(engine))?;
    Ok(())
}

// The calls of a trial, one after the other.
fn calls_of<'a>(heap: Global, made: &'a [Made]) -> anyhow::Result<Vec<Call<'a>>> {
    let mut calls = Vec::new(heap);
    for one in made {
        calls.push(one.call())?;
    }
    Ok(calls)
}

// Makes the calls under this chooser.
fn play_under<C: FairChooser>(
    rt: &HostRuntime,
    trial: &Trial,
    chooser: &mut C,
) -> anyhow::Result<()> {
    let calls = calls_of(rt.alloc(), trial.calls.as_slice())?;
    let none = Record::new(Step::internal(0, 0), &[]).context("no record")?;
    let mut steps = vec![in rt.alloc(); Step::internal(0, 0); trial.rooms.table as usize]?;
    let mut records = vec![in rt.alloc(); none; trial.rooms.journal as usize]?;
    let mut kept = vec![in rt.alloc(); Answer::Listed(Ok(())); trial.rooms.answers as usize]?;
    let mut table = StepTable::new(steps.as_mut_slice());
    let mut journal = Journal::new(records.as_mut_slice());
    let mut answers = RecordList::new(kept.as_mut_slice());
    let engine = perform_all(
        calls.as_slice(),
        chooser,
        &mut table,
        &mut journal,
        &mut answers,
    );
    print_end(
        rt,
        answers.all(),
        &table,
        trial.open,
        journal.all(),
        &engine,
    )
}

/// Makes the calls of a trial on a newly made engine.
pub(crate) fn play(rt: &HostRuntime, trial: &Trial) -> anyhow::Result<()> {
    match trial.chooser {
        Choice::Plain(Fair::Rotation) => play_under(rt, trial, &mut Rotation::new()),
        Choice::Plain(Fair::Seniority) => play_under(rt, trial, &mut Seniority::new()),
        Choice::Hold(k, Fair::Rotation) => {
            play_under(rt, trial, &mut Hold::new(Rotation::new(), k))
        }
        Choice::Hold(k, Fair::Seniority) => {
            play_under(rt, trial, &mut Hold::new(Seniority::new(), k))
        }
        Choice::Script(_) => None.context("a trial follows a fair chooser"),
    }
}
