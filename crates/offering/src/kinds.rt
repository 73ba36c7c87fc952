// The kinds of values and variables, as offers have them.
ghost use Rattle.std.specs.Prelude.{◌≡◌, map, None, slice_index_or};
ghost use Rattle.std.specs.List.{slice_get};
ghost use Rattle.values.specs.Values.{integer, kind_of};
ghost use Rattle.processes.specs.Evaluation.{values_of};
ghost use Rattle.listing.specs.Offers.{kind_places};
ghost use Rattle.steps.specs.Steps.{target_kinds};

use values::kind::Kind;
use values::row::Row;

// The kind of value `i`; none where there is no such value.
fn kind_at(rows: &[Row], i: usize) -> Option<Kind>
    ensures { result ≡ slice_get (map kind_of (values_of rows.now)) i }
{
    let row = rows.get(i)?;
    Some(row.value().kind())
}

/// The kinds of at most four values, none where unused.
// One by one: what `from_fn` gives of a closure that calls `kind_at` is not proved.
pub fn kinds_of(rows: &[Row]) -> [Option<Kind>; 4]
    ensures { result ≡ kind_places 4 (map kind_of (values_of rows.now)) }
{
    [
        kind_at(rows, 0),
        kind_at(rows, 1),
        kind_at(rows, 2),
        kind_at(rows, 3),
    ]
}

// The kind of a variable; an absent one is read as an Integer.
pub(crate) fn variable_kind(rows: &[Row], variable: u8) -> Kind
    ensures { result ≡ kind_of (slice_index_or (values_of rows.now) variable (integer None)) }
{
    kind_at(rows, variable as usize).unwrap_or(Kind::Integer)
}

// The same for variable `i` of a receive; none where there is no such variable.
fn target_at(targets: &[u8], rows: &[Row], i: usize) -> Option<Kind>
    ensures { result ≡ slice_get (target_kinds (values_of rows.now) targets.now) i }
{
    let variable = targets.get(i)?;
    Some(variable_kind(rows, *variable))
}

/// The kinds of the variables of a receive, none where unused.
// One by one, as above.
pub fn kinds_of_targets(targets: &[u8], rows: &[Row]) -> [Option<Kind>; 4]
    ensures { result ≡ kind_places 4 (target_kinds (values_of rows.now) targets.now) }
{
    [
        target_at(targets, rows, 0),
        target_at(targets, rows, 1),
        target_at(targets, rows, 2),
        target_at(targets, rows, 3),
    ]
}
