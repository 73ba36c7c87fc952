// Scripts that own their numbers.
ghost use Rattle.std.specs.Prelude.{◌≡◌, drop, vec_items};
ghost use Rattle.choosers.specs.Scripts.{script};

use choosers::answer::Declined;
use choosers::chooser::Chooser;
use choosers::script::Script;
use records::step::Step;

/// A script that owns its numbers, where `Script` borrows them.
#[derive(Drop)]
pub struct OwnedScript {
    numbers: Vec<u16>,
    // how many of them were followed
    followed: usize,
}

impl OwnedScript {
    /// Follows these numbers, the first one first.
    pub fn new(numbers: Vec<u16>) -> OwnedScript
        ensures numbers { result.numbers ≡ numbers }
        ensures followed { result.followed ≡ 0 }
    {
        OwnedScript {
            numbers,
            followed: 0,
        }
    }

    // The numbers that are left.
    fn left(&self) -> &[u16]
        ensures { result.now ≡ drop self.now.followed (vec_items self.now.numbers) }
    {
        let numbers = self.numbers.as_slice();
        &numbers[self.followed.min(numbers.len())..]
    }
}

impl Chooser for OwnedScript {
    ghost meaning = { λ s. script (drop s.followed (vec_items s.numbers)) };

    // Where the next number is too high, it stays at it.
    fn choose(&mut self, closed: &[Step]) -> Result<usize, Declined> {
        let pick = Script::new(self.left()).choose(closed)?;
        self.followed += 1;
        Ok(pick)
    }
}
