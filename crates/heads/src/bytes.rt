// Bytes and numbers of a file. File and place stay two parameters, here and in the checks:
// a check hands on the next place alone, and a struct of both would be made anew for each call.
ghost use Rattle.std.specs.Prelude.{◌≡◌};
ghost use Rattle.heads.specs.Heads.{byte, word_at, integer_at, row_at};

use commands::bytes::bytes_from;
use std::array;
use values::row::Row;

// The byte at a place; 0 behind the end.
pub(crate) fn byte_at(file: &[u8], at: usize) -> u8
    ensures { result ≡ byte file.now at }
{
    file.get(at).copied().unwrap_or(0)
}

// One function for each width: reading a number from bytes is in no trait of the library.
// The number of two bytes at a place, low byte first.
// `from_le_bytes` is of each type alone, so one function for both numbers would need a trait for it.
pub fn word_at(file: &[u8], at: usize) -> u16
    ensures { result ≡ word_at file.now at }
{
    let bytes = bytes_from(file, at);
    u16::from_le_bytes(array::from_fn(|i| byte_at(bytes, i)))
}

// The Integer of four bytes at a place, low byte first.
pub(crate) fn integer_at(file: &[u8], at: usize) -> i32
    ensures { result ≡ integer_at file.now at }
{
    let bytes = bytes_from(file, at);
    i32::from_le_bytes(array::from_fn(|i| byte_at(bytes, i)))
}

// The row of a variable's start value.
pub(crate) fn row_at(file: &[u8], at: usize) -> Row
    ensures { result ≡ row_at file.now at }
{
    let bytes = bytes_from(file, at);
    Row {
        kind: byte_at(bytes, 0),
        known: byte_at(bytes, 1),
        number: integer_at(bytes, 2),
    }
}
