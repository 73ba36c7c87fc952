// Where the parts of a class stand, by the number of the class.
// File and number stay two parameters: a struct of both could not hold the fact that every function asks for, since a
// ghost field is a fact with one proof at most, and this one names the tree of the class.
ghost use Rattle.commands.specs.Stands.{StmtAt};
ghost use Rattle.commands.specs.Trees.{Class};
ghost use Rattle.classes.specs.Classes.{ClassOf, Scoped};

use crate::place::class_at;
use heads::class::{Scope, scope_at, statement_at};

// Where the variables and declarations of a class stand.
pub(crate) fn scope_of(file: &[u8], class: u8) -> Scope
    requires { (c : Class) × ClassOf file.now class c }
    ensures { (c : Class) → ClassOf file.now class c → Scoped file.now result c }
{
    scope_at(file, class_at(file, class))
}

/// The place of the statement of a class.
pub fn statement_of(file: &[u8], class: u8) -> u16
    requires { (c : Class) × ClassOf file.now class c }
    ensures { (c : Class) → ClassOf file.now class c → StmtAt file.now result c.statement }
{
    statement_at(file, class_at(file, class)) as u16
}
