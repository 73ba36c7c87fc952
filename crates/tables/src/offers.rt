// What the processes of a table offer.
ghost use Rattle.std.specs.Prelude.{◌≡◌, ◌+◌, ◌*◌, ◌≤◌, map, length, IfSome};
ghost use Rattle.std.specs.List.{AllByRecursion};
ghost use Rattle.commands.specs.ByteLists.{Bytes};
ghost use Rattle.processes.specs.Evaluation.{values_of};
ghost use Rattle.processes.specs.Stores.{process_stores};
ghost use Rattle.processes.specs.Found.{stored_by, Answers};
ghost use Rattle.records.specs.Lists.{items, room_of, Grown};
ghost use Rattle.listing.specs.Offers.{offer_of, Holdable};
ghost use Rattle.steps.specs.Steps.{offers_from};
ghost use Rattle.steps.specs.Taking.{offered_front};
ghost use Rattle.tables.specs.Views.{view, processes_in};
ghost use Rattle.tables.specs.Offered.{SoundProcess, SoundTable, seen_offers};

use crate::table::{Entry, Table};
use listing::offer::Offer;
use offering::walk::put_fronts;
use processes::finding::front_of_places;
use processes::front::Front;
use records::list::RecordList;
use values::row::Row;

// The front of a number of a process; none where the process does not offer it.
// Its parts are no struct with the fact as ghost field: behind a field the range of the file's bytes is not known.
pub fn front_of(file: &[u8], classes: u8, entry: &Entry, rows: &[Row], number: u8) -> Option<Front>
    requires { SoundProcess file.now classes entry.now rows.now }
    ensures front { Answers file.now (values_of rows.now) result (offered_front (view file.now entry.now rows.now) number) }
    ensures stores { let one = view file.now entry.now rows.now in IfSome result (λ x. stored_by x.action ≡ process_stores one.variables one.left number) }
    ensures bytes { Bytes file.now }
{
    front_of_places(file, entry.left, rows, number)
}

// The offers of one process: those of its first statement.
fn put_offers_of(
    file: &[u8],
    classes: u8,
    process: u8,
    entry: &Entry,
    rows: &[Row],
    out: &mut RecordList<'_, Offer>,
)
    requires sound { SoundProcess file.now classes entry.now rows.now }
    requires room { length (items out.old) + 8 ≤ room_of out.old }
    ensures { Grown out.old out.new (seen_offers process (view file.now entry.now rows.now)) }
{
    if let Some((at, _rest)) = entry.left.split() {
        let _next = put_fronts(file, at as usize, rows, process, 0, out);
    }
}

// The offers of the first processes of a table, by process and front.
// By number: offers name it, and the places behind `count` are no processes.
pub fn put_offers(
    file: &[u8],
    classes: u8,
    table: &Table,
    count: u8,
    out: &mut RecordList<'_, Offer>,
)
    requires sound { SoundTable file.now classes table.now count }
    requires room { length (items out.old) + 8 * count ≤ room_of out.old }
    ensures grown { Grown out.old out.new (map offer_of (offers_from 0 (processes_in file.now table.now count))) }
    ensures held { AllByRecursion Holdable (offers_from 0 (processes_in file.now table.now count)) }
    ensures few { length (offers_from 0 (processes_in file.now table.now count)) ≤ 64 }
    ensures bytes { Bytes file.now }
{
    for p in 0..count {
        let entry = table.entries[p as usize];
        put_offers_of(file, classes, p, &entry, table.rows_of(p), out);
    }
}
