// The state of an engine as text.
ghost use Rattle.std.specs.Prelude.{Some};
ghost use Rattle.processes.specs.Evaluation.{values_of};
ghost use Rattle.processes.specs.Places.{places_of};
ghost use Rattle.session.specs.States.{left_text, process_text, state_text};

use engine::engine::Engine;
use inspect::line::Places;
use processes::left::Left;
use records::texts::Values;
use std::fmt;
use values::row::Row;

// The places of what remains of a process, or that it has ended.
#[derive(Clone, Copy)]
struct Remaining(Left);

impl fmt::Display for Remaining {
    ghost output = { λ r. Some (left_text (places_of r.0)) };

    fn fmt<W: fmt::Write>(&self, f: &mut fmt::Formatter<W>) -> fmt::Result {
        match self.0.split() {
            None => write!(f, " ended"),
            Some(_) => {
                let places = Places(self.0);
                write!(f, "{places}")
            }
        }
    }
}

// A process by its number, with what remains of it and its variables.
#[derive(Clone, Copy)]
struct Process<'a> {
    number: u8,
    left: Left,
    variables: &'a [Row],
}

impl fmt::Display for Process<'_> {
    ghost output = { λ p. Some (process_text p.number (places_of p.left) (values_of p.variables.now)) };

    fn fmt<W: fmt::Write>(&self, f: &mut fmt::Formatter<W>) -> fmt::Result {
        let number = self.number;
        let remaining = Remaining(self.left);
        let values = Values(self.variables);
        write!(f, "process {number}:{remaining};{values}")
    }
}

/// The processes of an engine: how many, and each on a line.
#[derive(Clone, Copy)]
pub struct State<'a>(pub &'a Engine);

impl fmt::Display for State<'_> {
    ghost output = { λ s. Some (state_text s.0.now.model) };

    fn fmt<W: fmt::Write>(&self, f: &mut fmt::Formatter<W>) -> fmt::Result {
        let count = self.0.processes();
        write!(f, "processes {count}")?;
        for number in 0..count {
            let process = Process {
                number,
                left: self.0.left(number),
                variables: self.0.variables(number),
            };
            write!(f, "\n{process}")?;
        }
        Ok(())
    }
}
