// Bytes written as hexadecimal digits.
ghost use Rattle.std.specs.Prelude.{◌≡◌, IfErr, IfOk, MatchOption, None, Ok, alloc_error, map};
ghost use Rattle.std.specs.List.{flat_map};
ghost use Rattle.hex.specs.Hex.{decode_of};
ghost use Rattle.inspect.specs.Words.{Refused, first_wrong, wrong};
ghost use Rattle.inspect.specs.declared.digits.HexFault.TheVariants.{Memory};

use hex::FromHexError;
use std::alloc::{AllocError, AllocFailed, Global};
use thiserror::Error;

// Why words are no bytes.
#[derive(Clone, Copy, Debug, Error)]
pub enum HexFault<'a> {
    #[error("there is not enough memory for this line")]
    Memory(AllocError),
    // the number of the word, from 1, and its text
    #[error("word {0}: expected hexadecimal digits, found '{1}'")]
    Digit(usize, &'a str),
    #[error("expected two digits for each byte, found an odd number of digits")]
    Odd,
}

// By hand, since a derived one promises nothing.
impl From<AllocError> for HexFault<'_> {
    ghost from_gives = { λ e fault. fault ≡ Memory e };

    fn from(error: AllocError) -> Self {
        HexFault::Memory(error)
    }
}

// The same where what did not fit into memory is handed back.
impl<T: Drop> From<AllocFailed<T>> for HexFault<'_> {
    ghost from_gives = { λ _ fault. fault ≡ Memory alloc_error };

    fn from(_error: AllocFailed<T>) -> Self {
        HexFault::Memory(AllocError)
    }
}

// Whether some byte of the word is no hexadecimal digit.
fn is_wrong(word: &str) -> bool
    ensures { result ≡ wrong word.now }
{
    !word.bytes().all(|b| b.is_ascii_hexdigit())
}

// The first word that is not all digits, as the fault that it is; no memory is taken for it.
fn wrong_word<'a>(words: &[&'a str]) -> Option<HexFault<'a>>
    ensures { MatchOption result (first_wrong (map (λ w. w.now) words.now) ≡ None) (Refused (map (λ w. w.now) words.now)) }
{
    match words.iter().position(|word| is_wrong(word)) {
        Some(i) => Some(HexFault::Digit(i + 1, words[i])),
        None => None,
    }
}

// The bytes that the words write, two digits to a byte; a byte may go over the end of a word.
pub fn bytes_of<'a>(heap: Global, words: &[&'a str]) -> Result<Vec<u8>, HexFault<'a>>
    ensures bytes { IfOk result (λ bytes. decode_of (flat_map (λ w. w.now) words.now) ≡ Ok bytes.items) }
    ensures refused { IfErr result (Refused (map (λ w. w.now) words.now)) }
{
    // before memory is taken for the digits of all words
    if let Some(fault) = wrong_word(words) {
        return Err(fault);
    }
    let text = words.concat(heap)?;
    match hex::decode(heap, text) {
        Ok(bytes) => Ok(bytes),
        // a match of its own, so that the last arm knows that there was memory
        Err(error) => match error {
            FromHexError::OutOfMemory => Err(HexFault::Memory(AllocError)),
            _ => Err(HexFault::Odd),
        },
    }
}
