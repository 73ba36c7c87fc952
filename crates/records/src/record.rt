// What a journal holds of a step that was taken: the step and the values that it exchanged.
ghost use Rattle.std.specs.Prelude.{◌≡◌};
ghost use Rattle.records.specs.Records.{record_of};

use crate::step::Step;
use values::row::Row;
pub use values::row::UNKNOWN;

/// A step that was taken, with the values that it exchanged: always four rows with their count, so that a record has one
/// size in lent memory.
#[derive(Clone, Copy, Debug)]
pub struct Record {
    /// The step.
    pub step: Step,
    /// How many values it exchanged.
    pub count: u8,
    /// The values; rows from the count on are the unknown Integer's.
    pub values: [Row; 4],
}

impl Record {
    /// The record of a step with the values given, at most four; unused rows are the unknown Integer's.
    pub fn new(step: Step, given: &[Row]) -> Option<Record>
        ensures { result ≡ record_of step given.now }
    {
        if given.len() > 4 {
            return None;
        }
        let row = |i: usize| given.get(i).copied().unwrap_or(UNKNOWN);
        Some(Record {
            step,
            count: given.len() as u8,
            values: [row(0), row(1), row(2), row(3)],
        })
    }
}
