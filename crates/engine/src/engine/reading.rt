// Reading an engine: the processes of its model, what remains of each, and their variables.
ghost use Rattle.std.specs.Prelude.{◌≡◌, length};
ghost use Rattle.processes.specs.Evaluation.{values_of};
ghost use Rattle.processes.specs.Places.{places_of};
ghost use Rattle.steps.specs.Taking.{process_numbered};
ghost use Rattle.tables.specs.Views.{left_in};
ghost use Rattle.models.specs.Reading.{places_left};
ghost use Rattle.models.specs.Views.{model_of, bytes_of};

use super::Engine;
use processes::left::Left;
use values::row::Row;

impl Engine {
    /// How many processes the model has.
    pub fn processes(&self) -> u8
        ensures { result ≡ length (model_of self.now.model).processes }
    {
        self.model.count()
    }

    /// The places in the file of the statements that remain of process `p`; none where there is no such process.
    pub fn left(&self, p: u8) -> Left
        ensures places { places_of result ≡ places_left self.now.model p }
        ensures stand { left_in (bytes_of self.now.model) result ≡ (process_numbered (model_of self.now.model) p).left }
    {
        self.model.left(p)
    }

    /// The rows of the variables of process `p`; none where there is no such process.
    pub fn variables(&self, p: u8) -> &[Row]
        ensures { values_of result.now ≡ (process_numbered (model_of self.now.model) p).variables }
    {
        self.model.variables(p)
    }
}
