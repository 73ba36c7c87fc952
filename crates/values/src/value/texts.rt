// Values as text: written, and read again.
ghost use Rattle.std.specs.Prelude.{◌≡◌, Some};
ghost use Rattle.std.specs.Str.Parse.{without_leading_sign};
ghost use Rattle.values.specs.Values.{number_of, truth_of, meaning};
ghost use Rattle.values.specs.Texts.{number_text, truth_text, text_of, is_numeral, read_signed, read_value, meaning_read};

use crate::value::{Boolean, Integer, TextFault, Value};
use std::fmt;
use std::str::FromStr;

impl fmt::Display for Integer {
    ghost output = { λ i. Some (number_text (number_of i)) };

    fn fmt<W: fmt::Write>(&self, f: &mut fmt::Formatter<W>) -> fmt::Result {
        match self.get() {
            Some(number) => write!(f, "{number}"),
            None => write!(f, "?i"),
        }
    }
}

impl fmt::Display for Boolean {
    ghost output = { λ b. Some (truth_text (truth_of b)) };

    fn fmt<W: fmt::Write>(&self, f: &mut fmt::Formatter<W>) -> fmt::Result {
        match self.get() {
            Some(truth) => write!(f, "{truth}"),
            None => write!(f, "?b"),
        }
    }
}

impl fmt::Display for Value {
    ghost output = { λ v. Some (text_of (meaning v)) };

    fn fmt<W: fmt::Write>(&self, f: &mut fmt::Formatter<W>) -> fmt::Result {
        match self {
            Value::Integer(i) => write!(f, "{i}"),
            Value::Boolean(b) => write!(f, "{b}"),
        }
    }
}

fn after_sign(bytes: &[u8]) -> &[u8]
    ensures { result.now ≡ without_leading_sign bytes.now }
{
    match bytes {
        [b'-', rest @ ..] => rest,
        [b'+', rest @ ..] => rest,
        _ => bytes,
    }
}

// Whether the bytes are an optional sign and one digit or more.
fn is_numeral(bytes: &[u8]) -> bool
    ensures { result ≡ is_numeral bytes.now }
{
    let digits = after_sign(bytes);
    !digits.is_empty() && digits.iter().all(|b| b.is_ascii_digit())
}

// The number that a text writes.
fn read_signed(text: &str) -> Result<i32, TextFault>
    ensures { result ≡ read_signed text.now }
{
    match text.parse::<i32>() {
        Ok(number) => Ok(number),
        Err(_) if is_numeral(text.as_bytes()) => Err(TextFault::OutOfRange),
        Err(_) => Err(TextFault::NotAValue),
    }
}

impl FromStr for Value {
    type Err = TextFault;

    ghost from_str_gives = { λ bs r. meaning_read r ≡ read_value bs };

    fn from_str(text: &str) -> Result<Value, TextFault> {
        match text {
            "?i" => Ok(Value::Integer(Integer::unknown())),
            "?b" => Ok(Value::Boolean(Boolean::unknown())),
            "true" => Ok(Value::Boolean(Boolean::new(true))),
            "false" => Ok(Value::Boolean(Boolean::new(false))),
            _ => read_signed(text).map(|number| Value::Integer(Integer::new(number))),
        }
    }
}
