// The offers of a statement, by one walk over it.
ghost use Rattle.std.specs.Prelude.{◌≡◌, ℕ, ◌+◌, ◌<◌, ◌≤◌, [], ◌∷◌, length};
ghost use Rattle.values.specs.Values.{meaning};
ghost use Rattle.commands.specs.Stands.{StmtAt};
ghost use Rattle.commands.specs.Trees.{Stmt};
ghost use Rattle.admission.specs.Conditions.{most_fronts};
ghost use Rattle.processes.specs.Evaluation.{values_of};
ghost use Rattle.records.specs.Lists.{items, room_of, Grown};
ghost use Rattle.offering.specs.Walked.{offer, offered_when, offered_either, Walk, seen_fronts};

use crate::kinds::kinds_of_targets;
use crate::sending::kinds_of_sent;
use commands::command::read;
use commands::statement::StatementCommand;
use listing::offer::{Exchange, Offer, Role};
use processes::counting::most_fronts;
use processes::evaluation::evaluate;
use processes::finding::{is_false, is_true};
use records::list::RecordList;
use values::few::Few;
use values::row::Row;
use values::value::Value;

// Appends the offer of a number, and answers the next number.
fn put_one(process: u8, n: u8, role: Role, out: &mut RecordList<'_, Offer>) -> u8
    requires few { n + 1 ≤ 8 }
    requires room { length (items out.old) + 1 ≤ room_of out.old }
    ensures grown { Grown out.old out.new (offer process n role ∷ []) }
    ensures next { result ≡ n + 1 }
{
    out.append_some(Some(Offer {
        process,
        front: n,
        role,
    }));
    n + 1
}

// Appends the internal offer of a number where it is offered.
fn put_when(offered: bool, process: u8, n: u8, out: &mut RecordList<'_, Offer>)
    requires room { length (items out.old) + 1 ≤ room_of out.old }
    ensures grown { Grown out.old out.new (offered_when offered process n) }
{
    out.append_some(offered.then_some(Offer {
        process,
        front: n,
        role: Role::Internal,
    }));
}

// The two ways of a condition: the first unless it is false, the second unless it is true.
fn put_either(condition: Value, process: u8, n: u8, out: &mut RecordList<'_, Offer>) -> u8
    requires few { n + 2 ≤ 8 }
    requires room { length (items out.old) + 2 ≤ room_of out.old }
    ensures grown { Grown out.old out.new (offered_either (meaning condition) process n) }
    ensures next { result ≡ n + 2 }
{
    put_when(!is_false(condition), process, n, out);
    put_when(!is_true(condition), process, n + 1, out);
    n + 2
}

/// Appends what the statement at `at` offers, numbered from `n` on, and answers the number behind the most fronts.
// File and place stay parameters: a struct of both could not hold that a statement stands there, since a ghost field is a
// fact with one proof at most.
pub fn put_fronts(
    file: &[u8],
    at: usize,
    rows: &[Row],
    process: u8,
    n: u8,
    out: &mut RecordList<'_, Offer>,
) -> u8
    requires { (s : Stmt) × Walk file.now at n out.old s }
    ensures offers { (s : Stmt) → StmtAt file.now at s → Grown out.old out.new (seen_fronts process n (values_of rows.now) s) }
    ensures next { (s : Stmt) → StmtAt file.now at s → result ≡ n + most_fronts s }
{
    let Some(command) = read::<StatementCommand>(file, at) else {
        return unreachable();
    };
    match command {
        StatementCommand::Skip | StatementCommand::Set(_) => {
            put_one(process, n, Role::Internal, out)
        }
        StatementCommand::Send(channel, message, count) => {
            let kinds = kinds_of_sent(file, at + 4, count, rows);
            let exchange = Exchange {
                channel,
                message,
                kinds,
            };
            put_one(process, n, Role::Send(exchange), out)
        }
        StatementCommand::Recv(channel, message, count, list) => {
            let targets = Few::first(list, count as usize);
            let kinds = kinds_of_targets(targets.as_slice(), rows);
            let exchange = Exchange {
                channel,
                message,
                kinds,
            };
            put_one(process, n, Role::Receive(exchange), out)
        }
        StatementCommand::Seq(_second) => put_fronts(file, at + 3, rows, process, n, out),
        StatementCommand::Sel(second) => {
            let next = put_fronts(file, at + 3, rows, process, n, out);
            put_fronts(file, second as usize, rows, process, next, out)
        }
        StatementCommand::Guard(body) => {
            if is_true(evaluate(file, at + 3, rows)) {
                put_fronts(file, body as usize, rows, process, n, out)
            } else {
                n + most_fronts(file, body as usize)
            }
        }
        StatementCommand::If(_yes, _no) => {
            put_either(evaluate(file, at + 5, rows), process, n, out)
        }
        StatementCommand::Do(_body) => put_either(evaluate(file, at + 3, rows), process, n, out),
    }
}
