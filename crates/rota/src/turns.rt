// A rota: a chooser takes its turns, and each process counts for how many turns running it was passed over.
ghost use Rattle.std.specs.Prelude.{◌≡◌, [], Some};
ghost use Rattle.std.specs.List.{list_any};
ghost use Rattle.records.specs.Steps.{has};
ghost use Rattle.choosers.specs.Meanings.{after, when_empty};
ghost use Rattle.rota.specs.Turns.{turn_text, picked_text, waiting_text, no_waiting, passed_over, waiting_after, waiting_next, turn_of, turns_after};

use choosers::chooser::Chooser;
use records::step::Step;
use std::{array, fmt};

#[derive(Drop)]
pub struct Rota<C> {
    chooser: C,
    turns: u64,
    waiting: Waiting,
}

// What came of a turn: a pick, or `None` where the chooser declined. Turns are counted from 1.
#[derive(Clone, Copy)]
pub struct Turn {
    pub turn: u64,
    pub outcome: Option<Picked>,
}

// The number of the picked step, the step, and the waiting of each process.
#[derive(Clone, Copy)]
pub struct Picked {
    pub number: usize,
    pub step: Step,
    pub waiting: Waiting,
}

// For how many turns running each process 0 to 7 has been passed over.
#[derive(Clone, Copy)]
pub struct Waiting {
    pub turns: [u64; 8],
}

impl<C: Chooser> Rota<C> {
    pub fn new(chooser: C) -> Self
        ensures chooser { result.chooser ≡ chooser }
        ensures turns { result.turns ≡ 0 }
        ensures waiting { result.waiting ≡ no_waiting }
    {
        Rota {
            chooser,
            turns: 0,
            waiting: Waiting { turns: [0; 8] },
        }
    }

    // One turn over these closed steps; none, and nothing altered, where there is no step.
    pub fn turn(&mut self, closed: &[Step]) -> Option<Turn>
        ensures answer { result ≡ turn_of (C.meaning self.old.chooser [] closed.now) self.old.turns self.old.waiting closed.now }
        ensures turns { self.new.turns ≡ turns_after self.old.turns closed.now }
        ensures waiting { self.new.waiting ≡ waiting_next (C.meaning self.old.chooser [] closed.now) self.old.waiting closed.now }
        ensures chooser { C.meaning self.new.chooser ≡ when_empty closed.now (C.meaning self.old.chooser) (after (C.meaning self.old.chooser) closed.now) }
    {
        if closed.is_empty() {
            return None;
        }
        self.turns = self.turns.saturating_add(1);
        let turn = self.turns;
        let Ok(number) = self.chooser.choose(closed) else {
            return Some(Turn {
                turn,
                outcome: None,
            });
        };
        let step = closed[number];
        let waiting = self.waiting.after(closed, step);
        self.waiting = waiting;
        Some(Turn {
            turn,
            outcome: Some(Picked {
                number,
                step,
                waiting,
            }),
        })
    }
}

// Whether process `p` is in one of the steps.
fn is_in_some(closed: &[Step], p: u8) -> bool
    ensures { result ≡ list_any (has p) closed.now }
{
    closed.iter().any(|s| s.involves(p))
}

// The waiting of process `p`: one turn more where it is in some closed step and not in the picked one.
#[tactic(auto, using(crate::proofs::Lines::some_has_any))]
fn waited(before: u64, closed: &[Step], step: Step, p: u8) -> u64
    ensures { result ≡ passed_over closed.now step p before }
{
    if is_in_some(closed, p) && !step.involves(p) {
        before.saturating_add(1)
    } else {
        0
    }
}

impl Waiting {
    // The waiting once a step was picked of the closed ones.
    fn after(self, closed: &[Step], step: Step) -> Waiting
        ensures { result ≡ waiting_after closed.now step self }
    {
        let turns = array::from_fn(|p| waited(self.turns[p], closed, step, p as u8));
        Waiting { turns }
    }
}

impl fmt::Display for Waiting {
    ghost output = { λ w. Some (waiting_text w) };

    fn fmt<W: fmt::Write>(&self, f: &mut fmt::Formatter<W>) -> fmt::Result {
        let [a, b, c, d, e, g, h, i] = self.turns;
        write!(f, "{a} {b} {c} {d} {e} {g} {h} {i}")
    }
}

impl fmt::Display for Picked {
    ghost output = { λ p. Some (picked_text p) };

    fn fmt<W: fmt::Write>(&self, f: &mut fmt::Formatter<W>) -> fmt::Result {
        let number = self.number;
        let step = self.step;
        let waiting = self.waiting;
        write!(f, "pick {number}: {step}; waiting {waiting}")
    }
}

impl fmt::Display for Turn {
    ghost output = { λ t. Some (turn_text t) };

    fn fmt<W: fmt::Write>(&self, f: &mut fmt::Formatter<W>) -> fmt::Result {
        let turn = self.turn;
        match self.outcome {
            Some(picked) => write!(f, "turn {turn} {picked}"),
            None => write!(f, "turn {turn} declined"),
        }
    }
}
