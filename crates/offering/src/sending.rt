// The kinds of the values of a send, from the commands of its expressions: no value is worked out.
ghost use Rattle.std.specs.Prelude.{◌≡◌, ◌≤◌, List, map, length};
ghost use Rattle.values.specs.Values.{kind_of};
ghost use Rattle.commands.specs.Stands.{ExprAt, ExprsAt};
ghost use Rattle.commands.specs.Trees.{Expr};
ghost use Rattle.processes.specs.Evaluation.{eval, leaf_value, values_of};
ghost use Rattle.listing.specs.Offers.{kind_places};

use crate::kinds::variable_kind;
use commands::command::read;
use commands::expression::{ExpressionCommand, Leaf};
use parts::walk::end_of_expression;
use values::kind::Kind;
use values::row::Row;

fn kind_of_leaf(leaf: Leaf, rows: &[Row]) -> Kind
    ensures { result ≡ kind_of (leaf_value (values_of rows.now) leaf) }
{
    match leaf {
        Leaf::Int(_) | Leaf::Iunk => Kind::Integer,
        Leaf::Bool(_) => Kind::Boolean,
        Leaf::Var(variable) => variable_kind(rows, variable),
    }
}

// The kind of the value of the expression at `at`.
fn kind_of_expression(file: &[u8], at: usize, rows: &[Row]) -> Kind
    requires { (e : Expr) × ExprAt file.now at e }
    ensures { (e : Expr) → ExprAt file.now at e → result ≡ kind_of (eval e (values_of rows.now)) }
{
    let Some(command) = read::<ExpressionCommand>(file, at) else {
        return unreachable();
    };
    match command {
        ExpressionCommand::Leaf(leaf) => kind_of_leaf(leaf, rows),
        ExpressionCommand::Binary(op, _second) => op.gives(),
        ExpressionCommand::Not => Kind::Boolean,
    }
}

// The kinds of the values of so many expressions, the first of them at `at`; none where unused.
pub(crate) fn kinds_of_sent(file: &[u8], at: usize, count: u8, rows: &[Row]) -> [Option<Kind>; 4]
    requires { (es : List Expr) × (count ≡ length es) × ExprsAt file.now at es × (count ≤ 4) }
    ensures { (es : List Expr) → count ≡ length es → ExprsAt file.now at es → result ≡ kind_places 4 (map (λ e. kind_of (eval e (values_of rows.now))) es) }
{
    let mut kinds = [None; 4];
    let mut place = at;
    // each ends where the next begins
    for i in 0..count {
        kinds[i as usize] = Some(kind_of_expression(file, place, rows));
        place = end_of_expression(file, place);
    }
    kinds
}
