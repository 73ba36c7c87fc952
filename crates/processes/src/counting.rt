// How many fronts a statement can have.
ghost use Rattle.std.specs.Prelude.{◌≡◌, ◌≤◌};
ghost use Rattle.commands.specs.Stands.{StmtAt};
ghost use Rattle.commands.specs.Trees.{Stmt};
ghost use Rattle.admission.specs.Conditions.{most_fronts};

use commands::command::read;
use commands::statement::StatementCommand;

// The most fronts of the statement at `at`: every guard true, every condition unknown.
// File and place stay parameters: a struct of both could not hold that a statement stands there, since a ghost field is a
// fact with one proof at most.
pub fn most_fronts(file: &[u8], at: usize) -> u8
    requires { (s : Stmt) × StmtAt file.now at s × (most_fronts s ≤ 8) }
    ensures { (s : Stmt) → StmtAt file.now at s → result ≡ most_fronts s }
{
    let Some(command) = read::<StatementCommand>(file, at) else {
        return unreachable();
    };
    match command {
        StatementCommand::Skip
        | StatementCommand::Set(_)
        | StatementCommand::Send(..)
        | StatementCommand::Recv(..) => 1,
        StatementCommand::Seq(_second) => most_fronts(file, at + 3),
        StatementCommand::Sel(second) => {
            let first = most_fronts(file, at + 3);
            let other = most_fronts(file, second as usize);
            first + other
        }
        StatementCommand::Guard(body) => most_fronts(file, body as usize),
        StatementCommand::If(..) | StatementCommand::Do(_) => 2,
    }
}
