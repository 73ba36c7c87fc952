// What a chooser answers: the number of a closed step, or that it declines.
ghost use Rattle.std.specs.Prelude.{◌≡◌};
ghost use Rattle.choosers.specs.Meanings.{pick_of};

use records::step::Step;

/// The answer of a chooser that picks no step.
#[derive(Clone, Copy, PartialEq, Eq, Debug)]
pub struct Declined;

/// The answer of a chooser that declines only where there is no step to pick.
pub fn picked(closed: &[Step], n: usize) -> Result<usize, Declined>
    ensures { result ≡ pick_of n closed.now }
{
    (!closed.is_empty()).then_some(n).ok_or(Declined)
}
