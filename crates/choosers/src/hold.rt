// Hold: over a fair chooser, it lets a process go on with its internal steps before another is served.
ghost use Rattle.std.specs.Prelude.{refl, ◌≡◌, ◌+◌, ◌-◌, ◌*◌, ◌<◌, ◌≤◌, []};
ghost use Rattle.choosers.specs.Meanings.{after};
ghost use Rattle.choosers.specs.Holds.{hold, hold_waits, held};
ghost use Rattle.choosers.specs.HoldsLemmas.{hold_fair};

use crate::chooser::FairChooser;
use crate::find::first_passing;
use records::step::Step;

/// Each pick of the chooser below is followed by at most `k` internal steps of the process picked.
#[derive(Drop)]
pub struct Hold<F> {
    below: F,
    k: u8,
    left: u8,
    kept: u8,
    ghost ok: { left ≤ k },
}

impl<F: FairChooser> Hold<F> {
    /// Nothing is left at first, so that the kept process does not matter.
    pub fn new(below: F, k: u8) -> Self
        ensures below { result.below ≡ below }
        ensures k { result.k ≡ k }
        ensures left { result.left ≡ 0 }
        ensures kept { result.kept ≡ 0 }
    {
        Hold {
            below,
            k,
            left: 0,
            kept: 0,
        }
    }

    // The first internal step of the kept process, while some is left.
    fn held(&self, closed: &[Step]) -> Option<usize>
        ensures { result ≡ held self.now.left self.now.kept closed.now }
    {
        if self.left == 0 {
            return None;
        }
        first_passing(closed, |s| s.internal_to(self.kept))
    }

    // Holds on, or else asks below. Where there is no step it answers 0 and stays.
    fn advance(&mut self, closed: &[Step]) -> usize
        ensures answer { result ≡ hold self.old.k (F.picks self.old.below) self.old.left self.old.kept [] closed.now }
        ensures later { hold self.new.k (F.picks self.new.below) self.new.left self.new.kept ≡ after (hold self.old.k (F.picks self.old.below) self.old.left self.old.kept) closed.now }
        ensures waits { hold_waits self.new.k (F.picks self.new.below) (F.waits self.new.below) self.new.left self.new.kept ≡ after (hold_waits self.old.k (F.picks self.old.below) (F.waits self.old.below) self.old.left self.old.kept) closed.now }
        ensures k { self.new.k ≡ self.old.k }
        ensures bound { F.bound self.new.below ≡ F.bound self.old.below }
    {
        if closed.is_empty() {
            return 0;
        }
        if let Some(i) = self.held(closed) {
            self.left -= 1;
            return i;
        }
        let i = self.below.pick(closed);
        self.kept = closed[i].process;
        self.left = self.k;
        i
    }
}

impl<F: FairChooser> FairChooser for Hold<F> {
    ghost picks = { λ s. hold s.k (F.picks s.below) s.left s.kept };

    ghost bound = { λ s. (s.k + 1) * F.bound s.below + s.k };

    ghost waits = { λ s. hold_waits s.k (F.picks s.below) (F.waits s.below) s.left s.kept };

    ghost never_declines = { λ _. refl };

    ghost fair = { λ s. hold_fair s.k (F.bound s.below) (F.picks s.below) (F.waits s.below) s.left s.kept (F.fair s.below) s.ok };

    fn pick(&mut self, closed: &[Step]) -> usize {
        self.advance(closed)
    }
}
