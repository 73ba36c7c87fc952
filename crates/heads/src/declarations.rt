// The declarations of a class, where they stand in the file.
ghost use Rattle.std.specs.Prelude.{◌≡◌, ◌+◌, ◌*◌, ◌≤◌, length};
ghost use Rattle.heads.specs.Heads.{byte, value_kinds, declaration_at, declarations_at};
ghost use Rattle.heads.specs.Exchanges.{exchange_of, same_kinds, same_declaration, declared as is_declared};

use crate::bytes::byte_at;
use crate::variables::kind_at;
use commands::bytes::bytes_from;
use values::kind::Kind;

// The place of the first declaration, and how many there are.
#[derive(Clone, Copy)]
pub struct Declarations {
    pub at: usize,
    pub count: u8,
}

// What a SEND or RECV exchanges: its direction, channel and message, and the kinds of its values.
// The direction is a bool, since the file has a byte of 0 or 1 for it.
#[derive(Clone, Copy)]
pub struct Exchange<'a> {
    pub receives: bool,
    pub channel: u8,
    pub message: u8,
    pub kinds: &'a [Kind],
}

// Whether the declaration that some bytes begin with has these kinds.
// Its own are bytes of the file, so there is no slice of kinds to compare with `==`.
fn same_kinds(bytes: &[u8], kinds: &[Kind]) -> bool
    ensures { result ≡ same_kinds kinds.now (value_kinds (byte bytes.now 3) bytes.now 4) }
{
    kinds.len() == byte_at(bytes, 3) as usize
        && kinds
            .iter()
            .enumerate()
            .all(|(i, kind)| *kind == kind_at(bytes, 4 + i))
}

impl Exchange<'_> {
    // Whether it is the declaration that some bytes begin with.
    fn is_first(&self, bytes: &[u8]) -> bool
        ensures { result ≡ same_declaration (exchange_of self.now) (declaration_at bytes.now 0) }
    {
        self.receives == (byte_at(bytes, 0) == 1)
            && self.channel == byte_at(bytes, 1)
            && self.message == byte_at(bytes, 2)
            && same_kinds(bytes, self.kinds)
    }
}

impl Declarations {
    // Whether one of them is this one.
    pub fn declare(self, file: &[u8], exchange: &Exchange) -> bool
        requires { self.at + 8 * self.count ≤ length file.now }
        ensures { result ≡ is_declared (exchange_of exchange.now) (declarations_at self.count file.now self.at) }
    {
        (0..self.count).any(|i| exchange.is_first(bytes_from(file, self.at + 8 * i as usize)))
    }
}
