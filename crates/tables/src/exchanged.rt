// The values that fronts send and take, as rows.
ghost use Rattle.std.specs.Prelude.{◌≡◌, ◌≤◌, true, map, length, None, slice_index_or};
ghost use Rattle.values.specs.Rows.{row_of};
ghost use Rattle.values.specs.Values.{integer, kind_of};
ghost use Rattle.heads.specs.Exchanges.{same_kinds};
ghost use Rattle.processes.specs.Evaluation.{values_of};
ghost use Rattle.processes.specs.Found.{action_of};
ghost use Rattle.listing.specs.Offers.{kind_places};
ghost use Rattle.tables.specs.Exchanging.{wanted_by, sent_by, rows_in};

use offering::kinds::{kinds_of, kinds_of_targets};
use processes::front::{Action, Sent};
use values::few::Few;
use values::kind::Kind;
use values::row::{Row, UNKNOWN};

// The kinds that an action asks for, none where unused.
fn wanted_kinds(action: &Action, rows: &[Row]) -> [Option<Kind>; 4]
    ensures are { result ≡ kind_places 4 (wanted_by (values_of rows.now) (action_of action.now)) }
    ensures few { length (wanted_by (values_of rows.now) (action_of action.now)) ≤ 4 }
{
    match action {
        Action::Receive(_, _, targets) => kinds_of_targets(targets.as_slice(), rows),
        Action::Internal | Action::Store(_, _) | Action::Send(_, _, _) => [None; 4],
    }
}

// Whether values are as many as an action asks for, and of those kinds.
pub fn takes(action: &Action, rows: &[Row], values: &[Row]) -> bool
    ensures exact { result ≡ same_kinds (wanted_by (values_of rows.now) (action_of action.now)) (map kind_of (values_of values.now)) }
    ensures short { result ≡ true → length values.now ≤ 4 }
{
    let wanted = wanted_kinds(action, rows);
    values.len() <= 4 && wanted == kinds_of(values)
}

// The row of value `i`; the unknown Integer's where there is none.
fn normal_row(rows: &[Row], i: usize) -> Row
    ensures { result ≡ row_of (slice_index_or (values_of rows.now) i (integer None)) }
{
    rows.get(i).map_or(UNKNOWN, |row| Row::from(row.value()))
}

// At most four values, each in the one row that a value has.
pub fn normal(rows: &[Row]) -> Sent
    ensures { length rows.now ≤ 4 → rows_in result ≡ map row_of (values_of rows.now) }
{
    // not `from_fn`: what it gives of a closure that calls `normal_row` is not proved
    let four = [
        normal_row(rows, 0),
        normal_row(rows, 1),
        normal_row(rows, 2),
        normal_row(rows, 3),
    ];
    Few::first(four, rows.len())
}

// The values that an action sends.
pub fn sent_by(action: &Action) -> Sent
    ensures { rows_in result ≡ map row_of (sent_by (action_of action.now)) }
{
    match action {
        Action::Send(_, _, sent) => normal(sent.as_slice()),
        Action::Internal | Action::Store(_, _) | Action::Receive(_, _, _) => normal(&[]),
    }
}
