// The first closed step that passes a test.
ghost use Rattle.std.specs.Prelude.{◌≡◌, Bool};
ghost use Rattle.records.specs.declared.step.Step.{Step as StepRow};
ghost use Rattle.choosers.specs.Firsts.{first, TestsAs};

use records::step::Step;

/// The number of the first step that passes: by any `t` that says how the test answers.
// Choosers go over the slice of closed steps by its numbers, which are what they answer.
pub fn first_passing<F: Fn(&Step) -> bool>(closed: &[Step], test: F) -> Option<usize>
    requires { F.IsAlwaysCallable test }
    ensures { (t : StepRow → Bool) → TestsAs F.Fn test t → result ≡ first t closed.now }
{
    for (i, s) in closed.iter().enumerate() {
        if test(s) {
            return Some(i);
        }
    }
    None
}
