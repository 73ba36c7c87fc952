// Choosers and fair choosers, and what fairness promises to whoever waits.
ghost use Rattle.std.specs.Prelude.{◌≡◌, ℕ, ◌<◌, [], length};
ghost use Rattle.choosers.specs.Meanings.{Meaning, Picker, picking, after, BelowCount};
ghost use Rattle.choosers.specs.Fairness.{Waits, Fair, Proper, Within, Lowers, Serves, FairServes};

use crate::answer::{Declined, picked};
use records::step::Step;

/// Asked about the closed steps, it picks one of them by its number, or declines. Asked about none, it declines.
pub trait Chooser {
    ghost meaning: { Self → Meaning };

    /// The number of the step that it picks. A question to which it declines counts as asked.
    fn choose(&mut self, closed: &[Step]) -> Result<usize, Declined>
        ensures answer { result ≡ meaning self.old [] closed.now }
        ensures later { meaning self.new ≡ after (meaning self.old) closed.now }
        ensures below { BelowCount result closed.now };
}

/// It has a pick wherever there is a step. Its picks have a bound, and each process has a wait within it.
pub trait FairChooser: Chooser {
    ghost picks: { Self → Picker };

    ghost bound: { Self → ℕ };

    ghost waits: { Self → Waits };

    /// Picks a step: who is in some closed step but not in the picked one waits less from then on.
    /// Where there is no step to pick, the number means nothing.
    fn pick(&mut self, closed: &[Step]) -> usize
        ensures answer { result ≡ picks self.old [] closed.now }
        ensures later { picks self.new ≡ after (picks self.old) closed.now }
        ensures below { 0 < length closed.now → result < length closed.now }
        ensures bound { bound self.new ≡ bound self.old }
        ensures waits { waits self.new ≡ after (waits self.old) closed.now }
        ensures within { Within (bound self.new) (waits self.new []) }
        ensures lowers { Proper closed.now → Lowers (waits self.old []) (waits self.new []) closed.now result };

    ghost never_declines: { (s : Self) → Self.meaning s ≡ picking (picks s) };

    ghost fair: { (s : Self) → Fair (bound s) (picks s) (waits s) };
}

/// Every fair chooser is a chooser that declines only where there is no step to pick.
impl<F: FairChooser> Chooser for F {
    ghost meaning = { λ s. picking (F.picks s) };

    fn choose(&mut self, closed: &[Step]) -> Result<usize, Declined> {
        let n = self.pick(closed);
        picked(closed, n)
    }
}

/// Under fair picks a process in some closed step at each of bound + 1 successive picks is in a step picked.
#[tactic(auto, using(crate::proofs::Fairness::serves))]
pub fn fair_serves()
    ensures { FairServes }
{}

/// So it is under this chooser, from now on.
#[tactic(auto, using(crate::proofs::Fairness::serves))]
pub fn serves_everyone<F: FairChooser>(f: &F)
    ensures { Serves (F.bound f.now) (F.picks f.now) }
{}
