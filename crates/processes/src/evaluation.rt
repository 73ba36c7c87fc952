// The value of an expression in the file's bytes.
ghost use Rattle.std.specs.Prelude.{◌≡◌};
ghost use Rattle.values.specs.Values.{meaning, boolean, negate, as_truth};
ghost use Rattle.commands.specs.Stands.{ExprAt};
ghost use Rattle.commands.specs.Trees.{Expr};
ghost use Rattle.processes.specs.Evaluation.{eval, leaf_value, values_of};

use commands::command::read;
use commands::expression::{ExpressionCommand, Leaf};
use values::row::Row;
use values::value::{Boolean, Integer, Value};

// The value of a variable; the unknown Integer where it is absent.
fn variable_value(variable: u8, variables: &[Row]) -> Value
    ensures { meaning result ≡ leaf_value (values_of variables.now) (Leaf.Var variable) }
{
    match variables.get(variable as usize) {
        Some(row) => row.value(),
        None => Value::Integer(Integer::unknown()),
    }
}

fn leaf_value(leaf: Leaf, variables: &[Row]) -> Value
    ensures { meaning result ≡ leaf_value (values_of variables.now) leaf }
{
    match leaf {
        Leaf::Int(number) => Value::Integer(Integer::new(number)),
        Leaf::Bool(0) => Value::Boolean(Boolean::new(false)),
        Leaf::Bool(1) => Value::Boolean(Boolean::new(true)),
        Leaf::Bool(_) => Value::Boolean(Boolean::unknown()),
        Leaf::Iunk => Value::Integer(Integer::unknown()),
        Leaf::Var(variable) => variable_value(variable, variables),
    }
}

// On the value; a sheet keeps rows, and has its own.
fn negated(value: Value) -> Value
    ensures { meaning result ≡ boolean (negate (as_truth (meaning value))) }
{
    Value::Boolean(value.boolean().not())
}

// The value of the expression at `at`. File and variables stay two parameters: behind a struct of both every
// clause would name its state at the call, and the bodies would lose one argument.
pub fn evaluate(file: &[u8], at: usize, variables: &[Row]) -> Value
    requires { (e : Expr) × ExprAt file.now at e }
    ensures { (e : Expr) → ExprAt file.now at e → meaning result ≡ eval e (values_of variables.now) }
{
    let Some(command) = read::<ExpressionCommand>(file, at) else {
        return unreachable();
    };
    match command {
        ExpressionCommand::Leaf(leaf) => leaf_value(leaf, variables),
        ExpressionCommand::Binary(op, place) => {
            let first = evaluate(file, at + 3, variables);
            let second = evaluate(file, place as usize, variables);
            op.apply(first, second)
        }
        ExpressionCommand::Not => negated(evaluate(file, at + 1, variables)),
    }
}
