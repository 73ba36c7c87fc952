// Where the parts of a class stand in a file that was checked. Each answer is a sum over `at`, which
// must fit a `usize`: so the three functions ask that `at` is in the file. They are called at
// a place that was just computed, so a struct with that fact would be made for one call.
ghost use Rattle.std.specs.Prelude.{◌≡◌, ◌+◌, ◌*◌, ◌≤◌, length};
ghost use Rattle.heads.specs.Heads.{word_at, row_at, statement_place};
ghost use Rattle.heads.specs.Scopes.{scope_at};

use crate::bytes::{byte_at, row_at, word_at};
use crate::declarations::Declarations;
use crate::variables::Variables;
use values::row::Row;

// What a class's statement may name: its variables and declarations.
// That they lie within the file is no part of it, since `scope_at` answers for any bytes.
#[derive(Clone, Copy)]
pub struct Scope {
    pub variables: Variables,
    pub declarations: Declarations,
}

// The variables and declarations of the class whose bytes begin at `at`.
pub fn scope_at(file: &[u8], at: usize) -> Scope
    requires { at ≤ length file.now }
    ensures { result ≡ scope_at file.now at }
{
    let count = byte_at(file, at);
    let place = at + 1 + 6 * count as usize;
    let variables = Variables { at: at + 1, count };
    let declarations = Declarations {
        at: place + 1,
        count: byte_at(file, place),
    };
    Scope {
        variables,
        declarations,
    }
}

// The place of its statement.
pub fn statement_at(file: &[u8], at: usize) -> usize
    requires { at ≤ length file.now }
    ensures { result ≡ statement_place file.now at }
{
    let scope = scope_at(file, at);
    scope.declarations.at + 8 * scope.declarations.count as usize
}

// The place behind the class at `at`.
pub fn end_of_class(file: &[u8], at: usize) -> usize
    requires { at ≤ length file.now }
    ensures { result ≡ at + 2 + word_at file.now at }
{
    at + 2 + word_at(file, at) as usize
}

impl Variables {
    // The row of the start value of a variable.
    pub fn start(self, file: &[u8], variable: u8) -> Row
        requires { self.at + 6 * variable ≤ length file.now }
        ensures { result ≡ row_at file.now (self.at + 6 * variable) }
    {
        row_at(file, self.at + 6 * variable as usize)
    }
}
