// Rotation: it serves processes in a circle.
ghost use Rattle.std.specs.Prelude.{refl, ◌≡◌, ◌<◌};
ghost use Rattle.choosers.specs.Rotations.{rotation, rotation_pick, rotation_next, rotation_waits, reach, away, behind};
ghost use Rattle.choosers.specs.RotationsLemmas.{rotation_fair};

use crate::chooser::FairChooser;
use records::step::{MEETING, Step};

/// It serves the nearest process at or after a cursor, and moves the cursor behind it.
#[derive(Drop)]
pub struct Rotation {
    cursor: u8,
    ghost ok: { cursor < 8 },
}

// A step, and how far its nearest process is from the cursor.
#[derive(Clone, Copy)]
struct Near {
    step: usize,
    distance: u8,
}

impl Rotation {
    /// With the cursor at process 0.
    pub fn new() -> Rotation
        ensures { result.cursor ≡ 0 }
    {
        Rotation { cursor: 0 }
    }

    // Picks the first step of the nearest process, and moves the cursor behind it.
    // Where no process 0 to 7 is in a step, it answers 0 and stays.
    fn advance(&mut self, closed: &[Step]) -> usize
        ensures answer { result ≡ rotation_pick self.old.cursor closed.now }
        ensures next { self.new.cursor ≡ rotation_next self.old.cursor closed.now }
    {
        let near = self.nearest(closed);
        self.cursor = self.behind(near.distance);
        near.step
    }

    // The cursor behind a process so far away.
    fn behind(&self, distance: u8) -> u8
        ensures exact { result ≡ behind self.now.cursor distance }
        ensures ok { result < 8 }
    {
        if distance < 8 {
            (self.cursor + distance + 1) % 8
        } else {
            self.cursor
        }
    }

    // How far process `p` is from the cursor, round 8.
    // 8 for any other number: farther than any process, so that comparing needs no case for it.
    fn reach(&self, p: u8) -> u8
        ensures { result ≡ reach self.now.cursor p }
    {
        if p < 8 { (8 + p - self.cursor) % 8 } else { 8 }
    }

    // How far the nearest process of a step is from the cursor.
    fn away(&self, s: &Step) -> u8
        ensures { result ≡ away self.now.cursor s.now }
    {
        let d = self.reach(s.process);
        if s.kind == MEETING {
            d.min(self.reach(s.partner))
        } else {
            d
        }
    }

    // In one pass: the first step of the nearest process; at distance 8 where there is none.
    // A loop: `min_by_key` would answer the step without its distance, which the cursor needs.
    fn nearest(&self, closed: &[Step]) -> Near
        ensures step { result.step ≡ rotation_pick self.now.cursor closed.now }
        ensures distance { behind self.now.cursor result.distance ≡ rotation_next self.now.cursor closed.now }
    {
        let mut best = Near {
            step: 0,
            distance: 8,
        };
        for (step, s) in closed.iter().enumerate() {
            let distance = self.away(s);
            if distance < best.distance {
                best = Near { step, distance };
            }
        }
        best
    }
}

impl FairChooser for Rotation {
    ghost picks = { λ s. rotation s.cursor };

    ghost bound = { λ _. 7 };

    ghost waits = { λ s. rotation_waits s.cursor };

    ghost never_declines = { λ _. refl };

    ghost fair = { λ s. rotation_fair s.cursor s.ok };

    fn pick(&mut self, closed: &[Step]) -> usize {
        self.advance(closed)
    }
}
