// The chooser that the first image installs.
ghost use Rattle.std.specs.Prelude.{◌≡◌};
ghost use Rattle.choosers.specs.Fairness.{Serves};
ghost use Rattle.choosers.specs.Holds.{hold};
ghost use Rattle.choosers.specs.Seniorities.{by_number, seniority};

use crate::chooser::serves_everyone;
use crate::hold::Hold;
use crate::seniority::Seniority;

/// Hold with K 3 over Seniority: 32 picks serve everyone.
pub fn installed() -> Hold<Seniority>
    ensures k { result.k ≡ 3 }
    ensures left { result.left ≡ 0 }
    ensures kept { result.kept ≡ 0 }
    ensures order { result.below.order ≡ by_number }
    ensures serves { Serves 31 (hold result.k (seniority result.below.order) result.left result.kept) }
{
    let h = Hold::new(Seniority::new(), 3);
    serves_everyone(&h);
    h
}
