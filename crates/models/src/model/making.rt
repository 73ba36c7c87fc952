// Making models.
ghost use Rattle.std.specs.Prelude.{◌≡◌, ◌≤◌, length, take, Ok};
ghost use Rattle.files.specs.Files.{Summary, check_file};
ghost use Rattle.models.specs.Making.{FreshTable};
ghost use Rattle.models.specs.Views.{model_of, no_processes, started, start_of};

use super::Model;
use crate::behaviour::process_class;
use admission::load::examine;
use answers::fault::LoadFault;
use arrivals::table::Arrivals;
use classes::fresh::Fresh;
use processes::left::Left;
use records::record::UNKNOWN;
use tables::table::{Entry, Table};

// A table of processes that have ended.
fn ended() -> Table {
    let entry = Entry {
        class: 0,
        variables: 0,
        left: Left::new(),
    };
    Table {
        entries: [entry; 8],
        rows: [[UNKNOWN; 8]; 8],
    }
}

// The entry of a fresh process.
fn fresh_entry(class: u8, fresh: &Fresh) -> Entry
    ensures { result ≡ record { class = class; variables = fresh.now.variables; left = fresh.now.left } }
{
    Entry {
        class,
        variables: fresh.variables,
        left: fresh.left,
    }
}

// A fresh process for each PROC of the behaviour at `at`, in file order.
// By number: `process_class` finds a PROC by it, and no list of them stands in memory.
fn fresh_table(file: &[u8], at: usize, count: u8) -> Table
    requires { (s : Summary) × (check_file file.now ≡ Ok s) × (s.1 ≡ at) × (s.2 ≡ count) }
    ensures { (s : Summary) → check_file file.now ≡ Ok s → s.1 ≡ at → s.2 ≡ count → FreshTable file.now s result count }
{
    let mut table = ended();
    for p in 0..count {
        let class = process_class(file, at, p);
        let fresh = Fresh::of(file, class);
        table.set(p, fresh_entry(class, &fresh), fresh.rows);
    }
    table
}

// The bytes of a file in memory of a model's size.
fn copied(file: &[u8]) -> [u8; 4096]
    requires { length file.now ≤ 4096 }
    ensures { take (length file.now) result ≡ file.now }
{
    let mut bytes = [0; 4096];
    bytes[0..file.len()].copy_from_slice(file);
    bytes
}

impl Model {
    /// The model that a file starts as, or the file's first fault.
    pub fn start(file: &[u8]) -> Result<Model, LoadFault>
        ensures { started result ≡ start_of file.now }
    {
        let summary = examine(file)?;
        let arrivals = Arrivals::of(file, summary.behaviour);
        let table = fresh_table(file, summary.behaviour, summary.processes);
        Ok(Model {
            file: copied(file),
            length: file.len(),
            classes: summary.classes,
            behaviour: summary.behaviour,
            arrivals,
            table,
            count: summary.processes,
        })
    }

    /// A model without processes.
    pub fn new() -> Model
        ensures { model_of result ≡ no_processes }
    {
        Model {
            file: [0; 4096],
            length: 0,
            classes: 0,
            behaviour: 0,
            arrivals: Arrivals::none(),
            table: ended(),
            count: 0,
        }
    }
}
