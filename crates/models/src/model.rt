// A model in fixed memory: the file, what loading found in it, arrivals, and the table of processes.
ghost use Rattle.std.specs.Prelude.{◌≤◌, take};
ghost use Rattle.models.specs.Sound.{AdmittedFile, ArrivalsOfFile, SoundProcesses};

use arrivals::table::Arrivals;
pub use gathered::MOST_STEPS;
use tables::table::Table;

mod advancing;
mod gathered;
mod making;
mod reading;
mod taking;

/// A model in fixed memory. Where there are processes, the file is admitted, the arrivals are its behaviour's, and every
/// process belongs to its class.
#[derive(Drop)]
pub struct Model {
    // room for the longest file, and how much of it this one fills: the engine takes nothing from the heap
    file: [u8; 4096],
    length: usize,
    classes: u8,
    // the place of the behaviour
    behaviour: usize,
    arrivals: Arrivals,
    table: Table,
    // how many of the table's eight processes there are: it has one size, like the room of the file
    count: u8,
    ghost short: { length ≤ 4096 },
    ghost few: { count ≤ 8 },
    ghost admitted: { AdmittedFile (take length file) classes behaviour count },
    ghost travels: { ArrivalsOfFile (take length file) behaviour arrivals.channels count },
    ghost kept: { SoundProcesses (take length file) classes table count },
}
