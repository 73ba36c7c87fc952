// A front: what a process does next, and what it leaves.
ghost use Rattle.std.specs.Prelude.{◌≡◌, ◌<◌, ◌≤◌, List, map, length};
ghost use Rattle.commands.specs.Stands.{ExprsAt};
ghost use Rattle.commands.specs.Trees.{Expr};
ghost use Rattle.processes.specs.Evaluation.{eval, values_of};
ghost use Rattle.processes.specs.Found.{values_in};

use crate::evaluation::evaluate;
use crate::left::Left;
use parts::walk::end_of_expression;
use values::few::Few;
use values::row::{Row, UNKNOWN};

// The values of a send.
pub type Sent = Few<Row, 4>;

// The variables of a receive.
pub type Targets = Few<u8, 4>;

#[derive(Clone, Copy)]
pub enum Action {
    Internal,
    // variable and value
    Store(u8, Row),
    // channel, message, values
    Send(u8, u8, Sent),
    // channel, message, variables
    Receive(u8, u8, Targets),
}

#[derive(Clone, Copy)]
pub struct Front {
    pub action: Action,
    pub leaves: Left,
}

// The values of so many expressions, the first of them at `at`. File, place and variables stay parameters, as of `evaluate`.
pub(crate) fn sent_values(file: &[u8], at: usize, count: u8, variables: &[Row]) -> Sent
    requires { (es : List Expr) × (count ≡ length es) × ExprsAt file.now at es × (count ≤ 4) }
    ensures { (es : List Expr) → count ≡ length es → ExprsAt file.now at es → values_in result ≡ map (λ e. eval e (values_of variables.now)) es }
{
    let mut sent = Few::new(UNKNOWN);
    let mut place = at;
    // each ends where the next begins
    for _i in 0..count {
        sent.push(Row::from(evaluate(file, place, variables)));
        place = end_of_expression(file, place);
    }
    sent
}
