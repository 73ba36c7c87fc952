// The choosers that words can name, each as a value of one type.
ghost use Rattle.std.specs.Prelude.{◌≡◌};
ghost use Rattle.rota.specs.Chosen.{meaning_of, named};

use crate::choice::{Choice, Fair};
use crate::owned::OwnedScript;
use choosers::answer::Declined;
use choosers::chooser::Chooser;
use choosers::hold::Hold;
use choosers::rotation::Rotation;
use choosers::seniority::Seniority;
use records::step::Step;

/// One of the choosers that words can name, wherever it stands.
#[derive(Drop)]
pub enum Chosen {
    /// Script, with numbers of its own.
    Script(OwnedScript),
    /// Rotation.
    Rotation(Rotation),
    /// Seniority.
    Seniority(Seniority),
    /// Hold over Rotation.
    HoldRotation(Hold<Rotation>),
    /// Hold over Seniority.
    HoldSeniority(Hold<Seniority>),
}

impl Chooser for Chosen {
    ghost meaning = { λ c. meaning_of c };

    fn choose(&mut self, closed: &[Step]) -> Result<usize, Declined> {
        match self {
            Chosen::Script(chooser) => chooser.choose(closed),
            Chosen::Rotation(chooser) => chooser.choose(closed),
            Chosen::Seniority(chooser) => chooser.choose(closed),
            Chosen::HoldRotation(chooser) => chooser.choose(closed),
            Chosen::HoldSeniority(chooser) => chooser.choose(closed),
        }
    }
}

impl Choice {
    /// The chooser that is named, at its start.
    pub fn chooser(self) -> Chosen
        ensures { meaning_of result ≡ named self }
    {
        match self {
            Choice::Script(numbers) => Chosen::Script(OwnedScript::new(numbers)),
            Choice::Plain(Fair::Rotation) => Chosen::Rotation(Rotation::new()),
            Choice::Plain(Fair::Seniority) => Chosen::Seniority(Seniority::new()),
            Choice::Hold(k, Fair::Rotation) => Chosen::HoldRotation(Hold::new(Rotation::new(), k)),
            Choice::Hold(k, Fair::Seniority) => Chosen::HoldSeniority(Hold::new(
                Seniority::new(),
                k,
            )),
        }
    }
}
