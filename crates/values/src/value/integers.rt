// What the operations do to Integers.
ghost use Rattle.std.specs.Prelude.{◌≡◌, Some, None};
ghost use Rattle.values.specs.Values.{number_of, truth_of, add, sub, mul, div, less, both, same_numbers};
ghost use Rattle.std.specs.Option.{option_zip};

use crate::value::{Boolean, Integer};

// The number, or unknown where there is none.
impl From<Option<i32>> for Integer {
    ghost from_gives = { λ n i. number_of i ≡ n };

    fn from(number: Option<i32>) -> Integer {
        match number {
            Some(n) => Integer::new(n),
            None => Integer::unknown(),
        }
    }
}

impl Integer {
    pub fn unknown() -> Integer
        ensures { number_of result ≡ None }
    {
        Integer {
            known: false,
            number: 0,
        }
    }

    pub fn new(number: i32) -> Integer
        ensures { number_of result ≡ Some number }
    {
        Integer {
            known: true,
            number,
        }
    }

    // The number, if it is known.
    pub fn get(self) -> Option<i32>
        ensures { result ≡ number_of self }
    {
        self.known.then_some(self.number)
    }

    // Both numbers, if they are known.
    fn both(self, other: Integer) -> Option<(i32, i32)>
        ensures { result ≡ option_zip (number_of self) (number_of other) }
    {
        self.get().zip(other.get())
    }

    // Each of the four is a line over the library's checked method, which a function that takes the method would not shorten.
    pub fn add(self, other: Integer) -> Integer
        ensures { number_of result ≡ add (number_of self) (number_of other) }
    {
        Integer::from(self.both(other).and_then(|(a, b)| a.checked_add(b)))
    }

    pub fn sub(self, other: Integer) -> Integer
        ensures { number_of result ≡ sub (number_of self) (number_of other) }
    {
        Integer::from(self.both(other).and_then(|(a, b)| a.checked_sub(b)))
    }

    pub fn mul(self, other: Integer) -> Integer
        ensures { number_of result ≡ mul (number_of self) (number_of other) }
    {
        Integer::from(self.both(other).and_then(|(a, b)| a.checked_mul(b)))
    }

    // The quotient without its fraction, which is dropped toward zero.
    pub fn div(self, other: Integer) -> Integer
        ensures { number_of result ≡ div (number_of self) (number_of other) }
    {
        Integer::from(self.both(other).and_then(|(a, b)| a.checked_div(b)))
    }

    pub fn less(self, other: Integer) -> Boolean
        ensures { truth_of result ≡ less (number_of self) (number_of other) }
    {
        Boolean::from(self.both(other).map(|(a, b)| a < b))
    }

    pub fn same(self, other: Integer) -> Boolean
        ensures { truth_of result ≡ both (λ a b. Some (same_numbers a b)) (number_of self) (number_of other) }
    {
        Boolean::from(self.both(other).map(|(a, b)| a == b))
    }
}
