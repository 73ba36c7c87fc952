// Script: it follows a caller's list of numbers.
ghost use Rattle.std.specs.Prelude.{◌≡◌};
ghost use Rattle.choosers.specs.Scripts.{script};

use crate::answer::Declined;
use crate::chooser::Chooser;
use records::step::Step;

/// It picks by a list of numbers, one after the other. Where none is left, or the next is too high, it declines.
#[derive(Drop)]
pub struct Script<'a> {
    numbers: &'a [u16],
}

impl<'a> Script<'a> {
    /// Follows these numbers, the first one first.
    pub fn new(numbers: &'a [u16]) -> Script<'a>
        ensures numbers { result.numbers.now ≡ numbers.now }
    {
        Script { numbers }
    }
}

impl Chooser for Script<'_> {
    ghost meaning = { λ s. script s.numbers.now };

    // Where the next number is too high, it stays at it.
    fn choose(&mut self, closed: &[Step]) -> Result<usize, Declined> {
        let (first, rest) = self.numbers.split_first().ok_or(Declined)?;
        let n = *first as usize;
        if n < closed.len() {
            self.numbers = rest;
            Ok(n)
        } else {
            Err(Declined)
        }
    }
}
