// Values of either kind.
ghost use Rattle.std.specs.Prelude.{◌≡◌};
ghost use Rattle.values.specs.Values.{number_of, truth_of, meaning, kind_of, unknown_of, as_number, as_truth, same};

use crate::kind::Kind;
use crate::value::{Boolean, Integer, Value};

impl Value {
    pub fn kind(self) -> Kind
        ensures { result ≡ kind_of (meaning self) }
    {
        match self {
            Value::Integer(_) => Kind::Integer,
            Value::Boolean(_) => Kind::Boolean,
        }
    }

    // The unknown value of a kind.
    pub fn unknown(kind: Kind) -> Value
        ensures { meaning result ≡ unknown_of kind }
    {
        match kind {
            Kind::Integer => Value::Integer(Integer::unknown()),
            Kind::Boolean => Value::Boolean(Boolean::unknown()),
        }
    }

    // The Integer; unknown at a Boolean. It and `boolean` each name their own variant.
    pub fn integer(self) -> Integer
        ensures { number_of result ≡ as_number (meaning self) }
    {
        match self {
            Value::Integer(i) => i,
            Value::Boolean(_) => Integer::unknown(),
        }
    }

    // The Boolean; unknown at an Integer.
    pub fn boolean(self) -> Boolean
        ensures { truth_of result ≡ as_truth (meaning self) }
    {
        match self {
            Value::Boolean(b) => b,
            Value::Integer(_) => Boolean::unknown(),
        }
    }

    // Whether two values of one kind are the same; unknown at two kinds.
    pub fn same(self, other: Value) -> Boolean
        ensures { truth_of result ≡ same (meaning self) (meaning other) }
    {
        match (self, other) {
            (Value::Integer(a), Value::Integer(b)) => a.same(b),
            (Value::Boolean(a), Value::Boolean(b)) => a.same(b),
            _ => Boolean::unknown(),
        }
    }
}
