// A process of a table after one of its fronts.
ghost use Rattle.std.specs.Prelude.{◌≡◌, ◌<◌, slice_set};
ghost use Rattle.processes.specs.Classes.{stored, after};
ghost use Rattle.processes.specs.Evaluation.{values_of};
ghost use Rattle.processes.specs.Found.{action_of, own_work};
ghost use Rattle.tables.specs.Moving.{Advanced};

use crate::table::Table;
use processes::front::{Action, Front};
use values::row::Row;

// Puts a row in place; nothing where there is no such variable.
// By index: what a write through `get_mut` leaves of the slice is not proved.
fn put_row(rows: &mut [Row], variable: u8, row: Row)
    ensures { rows.new ≡ slice_set rows.old variable row }
{
    let i = variable as usize;
    if i < rows.len() {
        rows[i] = row;
    }
}

// Stores the values of a receive in its variables, in order.
// By index: what a `zip` leaves of both lists is not proved.
fn store_values(rows: &mut [Row], targets: &[u8], got: &[Row])
    ensures { values_of rows.new ≡ stored (values_of rows.old) targets.now (values_of got.now) }
{
    for (i, variable) in targets.iter().enumerate() {
        if i < got.len() {
            put_row(rows, *variable, got[i]);
        }
    }
}

// The variables after an action, with the values that it receives.
fn after_action(rows: [Row; 8], action: &Action, got: &[Row]) -> [Row; 8]
    ensures { values_of result ≡ after (own_work (values_of rows) action.now) (action_of action.now) (values_of got.now) }
{
    let mut next = rows;
    match action {
        Action::Internal | Action::Send(_, _, _) => {}
        Action::Store(variable, row) => put_row(&mut next, *variable, *row),
        Action::Receive(_, _, targets) => store_values(&mut next, targets.as_slice(), got),
    }
    next
}

impl Table {
    // Process `p` goes on by a front, with the values that it receives; all others stay.
    pub fn go_on(&mut self, p: u8, front: &Front, got: &[Row])
        requires { p < 8 }
        ensures { Advanced self.old self.new p front.now (values_of got.now) }
    {
        let rows = after_action(self.rows[p as usize], &front.action, got);
        self.put(p, front.leaves, rows);
    }
}
