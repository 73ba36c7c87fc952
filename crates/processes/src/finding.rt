// The fronts of a process in a file.
ghost use Rattle.std.specs.Prelude.{◌≡◌, ℕ, ◌+◌, true, false, List, map, IfSome};
ghost use Rattle.values.specs.Values.{meaning};
ghost use Rattle.processes.specs.Fronts.{is_true, is_false, behind, fronts, process_fronts};
ghost use Rattle.values.specs.declared.kind.Kind.{Kind};
ghost use Rattle.commands.specs.Trees.{Stmt, Declaration, Class};
ghost use Rattle.processes.specs.Evaluation.{values_of};
ghost use Rattle.processes.specs.Stores.{stores, process_stores};
ghost use Rattle.processes.specs.Found.{one_front, two_fronts, front_numbered, stored_by, Answers, Ready, ProcessAt, Standing};

use crate::counting::most_fronts;
use crate::evaluation::evaluate;
use crate::front::{Action, Front, sent_values};
use crate::left::Left;
use commands::command::read;
use commands::statement::StatementCommand;
use values::few::Few;
use values::row::Row;
use values::value::Value;

pub fn is_true(value: Value) -> bool
    ensures { result ≡ is_true (meaning value) }
{
    value.boolean().get().unwrap_or(false)
}

pub fn is_false(value: Value) -> bool
    ensures { result ≡ is_false (meaning value) }
{
    value.boolean().get().is_some_and(|truth| !truth)
}

// The only front of a command.
fn one_front(number: u8, action: Action, leaves: Left) -> Option<Front>
    ensures { result ≡ one_front number action leaves }
{
    (number == 0).then_some(Front { action, leaves })
}

// The two ways of a condition: front 0 unless it is false, front 1 unless it is true.
fn two_fronts(condition: Value, number: u8, yes: Left, no: Left) -> Option<Front>
    ensures { result ≡ two_fronts (meaning condition) number yes no }
{
    match number {
        0 if !is_false(condition) => Some(Front {
            action: Action::Internal,
            leaves: yes,
        }),
        1 if !is_true(condition) => Some(Front {
            action: Action::Internal,
            leaves: no,
        }),
        _ => None,
    }
}

// The front of a number of the statement at `at`, before the rest of its process.
// File and place stay parameters: a struct of both could not hold that a statement stands there, since a ghost field is a
// fact with one proof at most.
fn front_at(file: &[u8], at: usize, rest: Left, variables: &[Row], number: u8) -> Option<Front>
    requires { (s : Stmt) × (ss : List Stmt) × Ready file.now at rest s ss }
    ensures found { (s : Stmt) (ss : List Stmt) (k : ℕ) → Ready file.now at rest s ss → Answers file.now (values_of variables.now) result (front_numbered (k + number) (map (behind ss) (fronts (values_of variables.now) k s))) }
    ensures stores { (s : Stmt) (ss : List Stmt) → Ready file.now at rest s ss → IfSome result (λ x. stored_by x.action ≡ stores (values_of variables.now) s number) }
{
    let Some(command) = read::<StatementCommand>(file, at) else {
        return unreachable();
    };
    match command {
        StatementCommand::Skip => one_front(number, Action::Internal, rest),
        StatementCommand::Set(variable) => {
            let row = Row::from(evaluate(file, at + 2, variables));
            one_front(number, Action::Store(variable, row), rest)
        }
        StatementCommand::Send(channel, message, count) => {
            let sent = sent_values(file, at + 4, count, variables);
            one_front(number, Action::Send(channel, message, sent), rest)
        }
        StatementCommand::Recv(channel, message, count, list) => {
            let targets = Few::first(list, count as usize);
            one_front(number, Action::Receive(channel, message, targets), rest)
        }
        StatementCommand::Seq(second) => {
            front_at(file, at + 3, rest.with(second), variables, number)
        }
        StatementCommand::Sel(second) => {
            let possible = most_fronts(file, at + 3);
            if number < possible {
                front_at(file, at + 3, rest, variables, number)
            } else {
                front_at(file, second as usize, rest, variables, number - possible)
            }
        }
        StatementCommand::Guard(body) => {
            if is_true(evaluate(file, at + 3, variables)) {
                front_at(file, body as usize, rest, variables, number)
            } else {
                None
            }
        }
        StatementCommand::If(yes, no) => {
            let condition = evaluate(file, at + 5, variables);
            two_fronts(condition, number, rest.with(yes), rest.with(no))
        }
        StatementCommand::Do(body) => {
            let condition = evaluate(file, at + 3, variables);
            let again = rest.with(at as u16);
            two_fronts(condition, number, again.with(body), rest)
        }
    }
}

// The front of a number of a process; none where the process does not offer it.
pub fn front(file: &[u8], left: Left, variables: &[Row], number: u8) -> Option<Front>
    requires { (c : Class) × (ss : List Stmt) × ProcessAt file.now left (values_of variables.now) c ss }
    ensures found { (c : Class) (ss : List Stmt) → ProcessAt file.now left (values_of variables.now) c ss → Answers file.now (values_of variables.now) result (front_numbered number (process_fronts (values_of variables.now) ss)) }
    ensures stores { (c : Class) (ss : List Stmt) → ProcessAt file.now left (values_of variables.now) c ss → IfSome result (λ x. stored_by x.action ≡ process_stores (values_of variables.now) ss number) }
{
    front_of_places(file, left, variables, number)
}

// The same of places where statements stand, whatever class they are of.
pub fn front_of_places(file: &[u8], left: Left, variables: &[Row], number: u8) -> Option<Front>
    requires { (ks : List Kind) × (ds : List Declaration) × (ss : List Stmt) × Standing file.now left ks ds ss }
    ensures found { (ks : List Kind) (ds : List Declaration) (ss : List Stmt) → Standing file.now left ks ds ss → Answers file.now (values_of variables.now) result (front_numbered number (process_fronts (values_of variables.now) ss)) }
    ensures stores { (ks : List Kind) (ds : List Declaration) (ss : List Stmt) → Standing file.now left ks ds ss → IfSome result (λ x. stored_by x.action ≡ process_stores (values_of variables.now) ss number) }
{
    let (at, rest) = left.split()?;
    front_at(file, at as usize, rest, variables, number)
}
