// The walk to the end of a part of a model file.
// The file stays while the place moves: a struct of both would be made anew for every part, and could not hold that a
// tree stands there, since a ghost field is a fact with one proof at most.
ghost use Rattle.std.specs.Prelude.{◌≡◌, ◌+◌, List, length};
ghost use Rattle.commands.specs.Stands.{ExprAt, ExprsAt, StmtAt, BehaviourAt};
ghost use Rattle.commands.specs.Trees.{Expr, Stmt, Behaviour, expr_size, exprs_size, stmt_size, behaviour_size};

use commands::behaviour::BehaviourCommand;
use commands::command::read;
use commands::expression::ExpressionCommand;
use commands::statement::StatementCommand;

// The place behind the expression at `at`.
pub fn end_of_expression(file: &[u8], at: usize) -> usize
    requires { (e : Expr) × ExprAt file.now at e }
    ensures { (e : Expr) → ExprAt file.now at e → result ≡ at + expr_size e }
{
    let Some(command) = read::<ExpressionCommand>(file, at) else {
        return unreachable();
    };
    match command {
        ExpressionCommand::Leaf(leaf) => at + leaf.size(),
        ExpressionCommand::Binary(_op, second) => end_of_expression(file, second as usize),
        ExpressionCommand::Not => end_of_expression(file, at + 1),
    }
}

// The place behind so many expressions, each next one where the one before ends.
pub fn end_of_values(file: &[u8], at: usize, count: u8) -> usize
    requires { (es : List Expr) × (count ≡ length es) × ExprsAt file.now at es }
    ensures { (es : List Expr) → count ≡ length es → ExprsAt file.now at es → result ≡ at + exprs_size es }
{
    let mut end = at;
    // each ends where the next begins, so no iterator has their places
    for _i in 0..count {
        end = end_of_expression(file, end);
    }
    end
}

// The place behind the statement at `at`.
pub fn end_of_statement(file: &[u8], at: usize) -> usize
    requires { (t : Stmt) × StmtAt file.now at t }
    ensures { (t : Stmt) → StmtAt file.now at t → result ≡ at + stmt_size t }
{
    let Some(command) = read::<StatementCommand>(file, at) else {
        return unreachable();
    };
    match command {
        StatementCommand::Skip => at + 1,
        StatementCommand::Set(_v) => end_of_expression(file, at + 2),
        StatementCommand::Send(_c, _m, count) => end_of_values(file, at + 4, count),
        StatementCommand::Recv(_c, _m, _n, _vs) => at + 8,
        StatementCommand::Seq(last)
        | StatementCommand::Sel(last)
        | StatementCommand::Guard(last)
        | StatementCommand::If(_, last)
        | StatementCommand::Do(last) => end_of_statement(file, last as usize),
    }
}

// The place behind the behaviour at `at`.
pub fn end_of_behaviour(file: &[u8], at: usize) -> usize
    requires { (t : Behaviour) × BehaviourAt file.now at t }
    ensures { (t : Behaviour) → BehaviourAt file.now at t → result ≡ at + behaviour_size t }
{
    let Some(command) = read::<BehaviourCommand>(file, at) else {
        return unreachable();
    };
    match command {
        BehaviourCommand::Proc(_class) => at + 2,
        BehaviourCommand::Par(second) => end_of_behaviour(file, second as usize),
        BehaviourCommand::Hide(_set) => end_of_behaviour(file, at + 5),
        BehaviourCommand::Rename(_from, _to) => end_of_behaviour(file, at + 3),
    }
}
