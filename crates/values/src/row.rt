// The plain form in which a value lies in lists, tables and lent memory: numbers, which are checked where they are read.
ghost use Rattle.std.specs.Prelude.{◌≡◌, true, false};
ghost use Rattle.values.specs.Rows.{valid_unknown, valid_truth, valid, row_kind, row_of, value_of_row, stored};
ghost use Rattle.values.specs.Values.{meaning, unknown_of};

use crate::kind::Kind;
use crate::value::{Boolean, Integer, Value};

#[derive(Clone, Copy, PartialEq, Eq, Debug)]
pub struct Row {
    pub kind: u8,
    pub known: u8,
    pub number: i32,
}

// The row of the unknown Integer.
pub const UNKNOWN: Row = Row {
    kind: 1,
    known: 0,
    number: 0,
};

impl Row {
    // Whether it is the row of an unknown value, its kind aside.
    fn valid_unknown(&self) -> bool
        ensures { result ≡ valid_unknown self.now }
    {
        self.known == 0 && self.number == 0
    }

    // Whether it is the row of a known Boolean, its kind aside.
    fn valid_truth(&self) -> bool
        ensures { result ≡ valid_truth self.now }
    {
        self.known == 1 && (self.number == 0 || self.number == 1)
    }

    // Whether it is the row of a value.
    pub fn valid(&self) -> bool
        ensures { result ≡ valid self.now }
    {
        match Kind::try_from(self.kind) {
            Ok(Kind::Integer) => self.valid_unknown() || self.known == 1,
            Ok(Kind::Boolean) => self.valid_unknown() || self.valid_truth(),
            Err(_) => false,
        }
    }

    // A row of kind 2 is a Boolean's, and any other an Integer's.
    fn value_kind(&self) -> Kind
        ensures { result ≡ row_kind self.now }
    {
        Kind::try_from(self.kind).unwrap_or(Kind::Integer)
    }

    // What a row that passes its check holds.
    fn stored(&self) -> Value
        ensures { meaning result ≡ stored self.now }
    {
        if self.known == 0 {
            return Value::unknown(self.value_kind());
        }
        match self.value_kind() {
            Kind::Integer => Value::Integer(Integer::new(self.number)),
            Kind::Boolean => Value::Boolean(Boolean::new(self.number != 0)),
        }
    }

    // The value; unknown where the row fails its check.
    pub fn value(&self) -> Value
        ensures exact { meaning result ≡ value_of_row self.now }
        ensures again { valid self.now ≡ true → row_of (meaning result) ≡ self.now }
        ensures refused { valid self.now ≡ false → meaning result ≡ unknown_of (row_kind self.now) }
    {
        if self.valid() {
            self.stored()
        } else {
            Value::unknown(self.value_kind())
        }
    }
}

// The row in which a value lies.
impl From<Value> for Row {
    ghost from_gives = { λ v r. (r ≡ row_of (meaning v)) × (valid r ≡ true) × (value_of_row r ≡ meaning v) };

    fn from(value: Value) -> Row {
        let number = match value {
            Value::Integer(i) => i.get(),
            Value::Boolean(b) => b.get().map(i32::from),
        };
        Row {
            kind: u8::from(value.kind()),
            known: u8::from(number.is_some()),
            number: number.unwrap_or(0),
        }
    }
}
