// A fresh process of a class: start values, and the class's statement before it.
ghost use Rattle.std.specs.Prelude.{◌≡◌, ◌+◌, ◌-◌, ◌*◌, ◌≤◌, ◌++◌, length, replicate};
ghost use Rattle.commands.specs.Trees.{Class};
ghost use Rattle.classes.specs.Classes.{ClassOf, rows_at};
ghost use Rattle.classes.specs.Starts.{unknown_row, FreshOf};

use crate::head::{scope_of, statement_of};
use heads::variables::Variables;
use processes::left::Left;
use values::row::{Row, UNKNOWN};

/// A fresh process, with all eight rows as the table of processes takes them.
#[derive(Clone, Copy)]
pub struct Fresh {
    /// How many variables it has.
    pub variables: u8,
    /// Their rows; those beyond are the unknown Integer's.
    pub rows: [Row; 8],
    /// The places of the statements that remain.
    pub left: Left,
}

// The rows of start values.
fn start_rows(file: &[u8], variables: Variables) -> [Row; 8]
    requires { (variables.count ≤ 8) × (variables.at + 6 * variables.count ≤ length file.now) }
    ensures { result ≡ rows_at variables.count file.now variables.at ++ replicate (8 - variables.count) unknown_row }
{
    let mut rows = [UNKNOWN; 8];
    // the number names a variable in the file as well as its row
    for i in 0..variables.count {
        rows[i as usize] = variables.start(file, i);
    }
    rows
}

impl Fresh {
    /// A process of a class that has done nothing yet.
    pub fn of(file: &[u8], class: u8) -> Fresh
        requires { (c : Class) × ClassOf file.now class c }
        ensures { (c : Class) → ClassOf file.now class c → FreshOf file.now c result }
    {
        let variables = scope_of(file, class).variables;
        Fresh {
            variables: variables.count,
            rows: start_rows(file, variables),
            left: Left::new().with(statement_of(file, class)),
        }
    }
}
