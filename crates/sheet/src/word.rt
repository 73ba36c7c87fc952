// The words of an expression in prefix form.
ghost use Rattle.std.specs.Prelude.{◌≡◌};
ghost use Rattle.sheet.specs.Words.{word_of, value_word, term_kind};

use values::kind::Kind;
use values::op::Op;
use values::row::Row;
use values::value::{TextFault, Value};

// What begins an expression: a value, or an operation before its parts.
#[derive(Clone, Copy)]
pub enum Term {
    Value(Row),
    Not,
    Binary(Op),
}

// What a word is: a term, or why it is none.
pub type Word = Result<Term, TextFault>;

impl Term {
    // The kind of the expression that it begins.
    pub fn kind(self) -> Kind
        ensures { result ≡ term_kind self }
    {
        match self {
            Term::Value(row) => row.value().kind(),
            Term::Not => Kind::Boolean,
            Term::Binary(op) => op.gives(),
        }
    }
}

// The word that a value's text is.
fn value_word(text: &str) -> Word
    ensures { result ≡ value_word text.now }
{
    let value = text.parse::<Value>()?;
    Ok(Term::Value(Row::from(value)))
}

pub fn read_word(text: &str) -> Word
    ensures { result ≡ word_of text.now }
{
    match text {
        "NOT" => Ok(Term::Not),
        _ => match text.parse() {
            Ok(op) => Ok(Term::Binary(op)),
            Err(_) => value_word(text),
        },
    }
}
