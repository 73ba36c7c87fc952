// Reading a command at a place of the file.
ghost use Rattle.std.specs.Prelude.{◌≡◌, ℕ, ◌+◌, ◌≤◌, ◌<◌, List, Option, length, drop, IfSome};

use crate::bytes::bytes_from;

// A command with its operands, as its bytes have it.
pub trait Command: Sized {
    // The command that some bytes begin with; none where it is unknown or cut short.
    ghost command: { List ℕ → Option Self };

    // The bytes that it takes with its operands.
    ghost size: { Self → ℕ };

    fn first(bytes: &[u8]) -> Option<Self>
        ensures exact { result ≡ command bytes.now }
        ensures some { IfSome result (λ c. 0 < size c) }
        ensures long { IfSome result (λ c. size c ≤ length bytes.now) };
}

// The command at a place.
pub fn read<C: Command>(file: &[u8], at: usize) -> Option<C>
    ensures exact { result ≡ C.command (drop at file.now) }
    ensures some { IfSome result (λ c. 0 < C.size c) }
    ensures long { IfSome result (λ c. at + C.size c ≤ length file.now) }
{
    C::first(bytes_from(file, at))
}
