// The check of a whole file.
ghost use Rattle.std.specs.Prelude.{◌≡◌, ◌≤◌, Some, length, OnOk};
ghost use Rattle.files.specs.Files.{check_body, check_class, check_classes, header_classes, check_file};
ghost use Rattle.files.specs.Answers.{summary_text};
ghost use Rattle.files.specs.Summaries.{summed};

use crate::behaviour::check_behaviour;
use crate::body::Body;
use answers::fault::{FaultKind, Layer, LoadFault};
use heads::bytes::word_at;
use heads::checked::{ask, fault};
use heads::class::scope_at;
use heads::head::{check_head, inside};
use std::fmt;

// The levels that commands may nest.
pub const LEVELS: u8 = 32;

// What loading needs of an admitted file.
#[derive(Clone, Copy, PartialEq, Eq, Debug)]
pub struct Summary {
    pub classes: u8,
    // the place of the behaviour
    pub behaviour: usize,
    pub processes: u8,
}

impl fmt::Display for Summary {
    ghost output = { λ s. Some (summary_text s) };

    fn fmt<W: fmt::Write>(&self, f: &mut fmt::Formatter<W>) -> fmt::Result {
        let Summary {
            classes,
            processes,
            ..
        } = *self;
        write!(f, "admitted classes {classes} processes {processes}")
    }
}

// Head and statement of the class whose bytes begin at `at` and end with the slice.
fn check_body(file: &[u8], at: usize) -> Result<(), LoadFault>
    ensures { result ≡ check_body file.now at }
{
    let statement = check_head(file, at)?;
    let scope = scope_at(file, at);
    let (end, _) = Body { file, scope }.check_statement(statement, LEVELS)?;
    ask(end == file.len(), FaultKind::Command, end, Layer::Statement)
}

// The class at a place, and the place behind it.
fn check_class(file: &[u8], at: usize) -> Result<usize, LoadFault>
    ensures { result ≡ check_class file.now at }
{
    inside(file, at, 2)?;
    let bytes = word_at(file, at) as usize;
    inside(file, at, 2 + bytes)?;
    let end = at + 2 + bytes;
    check_body(&file[..end], at + 2)?;
    Ok(end)
}

// The classes one after the other, and the place behind them.
#[tactic(auto, using(crate::proofs::Filing::classes_step))]
fn check_classes(file: &[u8], count: u8, start: usize) -> Result<usize, LoadFault>
    ensures { result ≡ check_classes count file.now start }
{
    let mut at = start;
    // a class begins where the one before it ends; with `try_fold` in its place the clause stayed open
    for _i in 0..count {
        at = check_class(file, at)?;
    }
    Ok(at)
}

// The number of classes, behind the length and the first bytes.
fn check_header(file: &[u8]) -> Result<u8, LoadFault>
    ensures exact { result ≡ header_classes file.now }
    ensures long { OnOk result (4 ≤ length file.now) }
{
    let [first, second, third, classes, rest @ ..] = file else {
        return Err(fault(FaultKind::Length, 0, Layer::File));
    };
    ask(rest.len() <= 4092, FaultKind::Length, 0, Layer::File)?;
    ask(*first == 0x50, FaultKind::FirstBytes, 0, Layer::File)?;
    ask(*second == 0x53, FaultKind::FirstBytes, 1, Layer::File)?;
    ask(*third == 0x01, FaultKind::FirstBytes, 2, Layer::File)?;
    ask(
        (1..=8).contains(classes),
        FaultKind::FirstBytes,
        3,
        Layer::File,
    )?;
    Ok(*classes)
}

// Whether the file is admitted: what loading needs of it, or its first fault.
pub fn check_file(file: &[u8]) -> Result<Summary, LoadFault>
    ensures { summed result ≡ check_file file.now }
{
    let classes = check_header(file)?;
    let behaviour = check_classes(file, classes, 4)?;
    let end = check_behaviour(file, classes, behaviour, LEVELS, 0)?;
    ask(
        end.0 == file.len(),
        FaultKind::Command,
        end.0,
        Layer::Behaviour,
    )?;
    Ok(Summary {
        classes,
        behaviour,
        processes: end.1,
    })
}
