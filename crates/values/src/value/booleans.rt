// What the operations do to Booleans.
ghost use Rattle.std.specs.Prelude.{◌≡◌, Some, None};
ghost use Rattle.values.specs.Values.{truth_of, and, or, negate, both, same_truths};

use crate::value::Boolean;

// Whether it is true, or unknown where that is not said.
impl From<Option<bool>> for Boolean {
    ghost from_gives = { λ t b. truth_of b ≡ t };

    fn from(truth: Option<bool>) -> Boolean {
        match truth {
            Some(t) => Boolean::new(t),
            None => Boolean::unknown(),
        }
    }
}

impl Boolean {
    pub fn unknown() -> Boolean
        ensures { truth_of result ≡ None }
    {
        Boolean {
            known: false,
            truth: false,
        }
    }

    pub fn new(truth: bool) -> Boolean
        ensures { truth_of result ≡ Some truth }
    {
        Boolean { known: true, truth }
    }

    // Whether it is true, if that is known.
    pub fn get(self) -> Option<bool>
        ensures { result ≡ truth_of self }
    {
        self.known.then_some(self.truth)
    }

    pub fn and(self, other: Boolean) -> Boolean
        ensures { truth_of result ≡ and (truth_of self) (truth_of other) }
    {
        match (self.get(), other.get()) {
            (Some(false), _) | (_, Some(false)) => Boolean::new(false),
            (Some(true), Some(true)) => Boolean::new(true),
            _ => Boolean::unknown(),
        }
    }

    // Its own table, as its definition: by `and` and `not` it would take three calls to read.
    pub fn or(self, other: Boolean) -> Boolean
        ensures { truth_of result ≡ or (truth_of self) (truth_of other) }
    {
        match (self.get(), other.get()) {
            (Some(true), _) | (_, Some(true)) => Boolean::new(true),
            (Some(false), Some(false)) => Boolean::new(false),
            _ => Boolean::unknown(),
        }
    }

    pub fn not(self) -> Boolean
        ensures { truth_of result ≡ negate (truth_of self) }
    {
        Boolean::from(self.get().map(|b| !b))
    }

    pub fn same(self, other: Boolean) -> Boolean
        ensures { truth_of result ≡ both (λ a b. Some (same_truths a b)) (truth_of self) (truth_of other) }
    {
        Boolean::from(self.get().zip(other.get()).map(|(a, b)| a == b))
    }
}
