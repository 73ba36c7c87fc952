// Seniority: it serves who has been in no picked step for longest.
ghost use Rattle.std.specs.Prelude.{refl, ◌≡◌, ◌<◌, ◌==◌, length, position, IfSome};
ghost use Rattle.choosers.specs.Seniorities.{by_number, seniority, senior_step, seniority_pick, seniority_next, seniority_waits, to_end, demoted, Complete};
ghost use Rattle.choosers.specs.SenioritiesLemmas.{seniority_fair};

use crate::chooser::FairChooser;
use crate::find::first_passing;
use records::step::{MEETING, Step};

/// It keeps the process numbers in an order: the longer one has been in no picked step, the further in front.
#[derive(Drop)]
pub struct Seniority {
    order: [u8; 8],
    ghost ok: { Complete order },
}

impl Seniority {
    /// With the processes in order of their numbers.
    pub fn new() -> Seniority
        ensures { result.order ≡ by_number }
    {
        Seniority {
            order: [0, 1, 2, 3, 4, 5, 6, 7],
        }
    }

    // Picks the first step of the frontmost process that is in one, and moves whoever is in it to the end.
    // Where no process 0 to 7 is in a step, it answers 0 and stays.
    fn advance(&mut self, closed: &[Step]) -> usize
        ensures answer { result ≡ seniority_pick self.old.order closed.now }
        ensures next { self.new.order ≡ seniority_next self.old.order closed.now }
    {
        let Some(i) = frontmost(&self.order, closed) else {
            return 0;
        };
        demote_all(&mut self.order, closed[i]);
        i
    }
}

// The first step of the frontmost process that is in one.
fn frontmost(order: &[u8], closed: &[Step]) -> Option<usize>
    ensures below { IfSome result (λ i. i < length closed.now) }
    ensures answer { result ≡ senior_step order.now closed.now }
{
    // a loop: what `find_map` answers for a closure that searches again is not proved
    for p in order {
        if let Some(i) = first_passing(closed, |s| s.involves(*p)) {
            return Some(i);
        }
    }
    None
}

// The place of process `p` in the order.
fn place_of(order: &[u8], p: u8) -> Option<usize>
    ensures { result ≡ position (λ x. x == p) order.now }
{
    order.iter().position(|x| *x == p)
}

// Moves process `p` to the end of the order.
fn demote(order: &mut [u8], p: u8)
    ensures { order.new ≡ to_end p order.old }
{
    if let Some(i) = place_of(order, p) {
        order[i..].rotate_left(1);
    }
}

// Moves the process of a step to the end of the order, and then the partner in a meeting.
fn demote_all(order: &mut [u8], s: Step)
    ensures { order.new ≡ demoted s order.old }
{
    demote(order, s.process);
    if s.kind == MEETING {
        demote(order, s.partner);
    }
}

impl FairChooser for Seniority {
    ghost picks = { λ s. seniority s.order };

    ghost bound = { λ _. 7 };

    ghost waits = { λ s. seniority_waits s.order };

    ghost never_declines = { λ _. refl };

    ghost fair = { λ s. seniority_fair s.order s.ok };

    fn pick(&mut self, closed: &[Step]) -> usize {
        self.advance(closed)
    }
}
