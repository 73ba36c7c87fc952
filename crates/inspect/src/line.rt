// A front as a line of the command `fronts`.
ghost use Rattle.std.specs.Prelude.{Some};
ghost use Rattle.std.specs.List.{flat_map};
ghost use Rattle.commands.specs.Texts.{spaced};
ghost use Rattle.processes.specs.Places.{places_of};
ghost use Rattle.inspect.specs.Lines.{action_text, line_text};

use commands::text::Spaced;
use processes::front::{Action, Front};
use processes::left::Left;
use records::texts::Values;
use std::fmt;

// A front by its number.
#[derive(Drop)]
pub struct Line {
    pub number: u8,
    pub front: Front,
}

// What a front does.
#[derive(Clone, Copy)]
struct Does(Action);

impl fmt::Display for Does {
    ghost output = { λ d. Some (action_text d.0) };

    fn fmt<W: fmt::Write>(&self, f: &mut fmt::Formatter<W>) -> fmt::Result {
        match &self.0 {
            Action::Internal => write!(f, "internal"),
            Action::Store(variable, row) => {
                let value = row.value();
                write!(f, "set {variable} {value}")
            }
            Action::Send(channel, message, sent) => {
                let values = Values(sent.as_slice());
                write!(f, "send {channel} {message}{values}")
            }
            Action::Receive(channel, message, targets) => {
                let into = Spaced(targets.as_slice());
                write!(f, "receive {channel} {message}{into}")
            }
        }
    }
}

/// The places of what remains, with a space before each.
#[derive(Clone, Copy)]
pub struct Places(pub Left);

impl fmt::Display for Places {
    ghost output = { λ p. Some (flat_map spaced (places_of p.0)) };

    fn fmt<W: fmt::Write>(&self, f: &mut fmt::Formatter<W>) -> fmt::Result {
        // what remains is stored last first, and `split` alone takes it apart in order
        let mut left = self.0;
        while let Some((place, rest)) = left.split() {
            write!(f, " {place}")?;
            left = rest;
        }
        Ok(())
    }
}

impl fmt::Display for Line {
    ghost output = { λ l. Some (line_text l.number l.front.action (places_of l.front.leaves)) };

    fn fmt<W: fmt::Write>(&self, f: &mut fmt::Formatter<W>) -> fmt::Result {
        let number = self.number;
        let does = Does(self.front.action);
        let leaves = Places(self.front.leaves);
        write!(f, "{number} {does} leaves{leaves}")
    }
}
