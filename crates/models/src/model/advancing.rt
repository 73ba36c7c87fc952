// Which steps a model takes, and the model after one.
ghost use Rattle.std.specs.Prelude.{◌≡◌, ◌≤◌, true, map, length, Some, None, Ok};
ghost use Rattle.values.specs.Rows.{row_of};
ghost use Rattle.processes.specs.Evaluation.{values_of};
ghost use Rattle.records.specs.Records.{record_of};
ghost use Rattle.steps.specs.Taking.{fits, refusal, exchanged, after_step};
ghost use Rattle.tables.specs.Exchanging.{rows_in};
ghost use Rattle.models.specs.Checking.{refusal_in};
ghost use Rattle.models.specs.Views.{model_of};

use super::Model;
use answers::refusal::TakeRefusal;
use processes::front::Sent;
use records::record::Record;
use records::step::{INTERNAL, MEETING, OUTSIDE_RECEIVE, Step};
use tables::exchanged::{normal, sent_by, takes};
use values::row::Row;

impl Model {
    // Whether values fit a step: those of an outside receive its variables; any other step takes none.
    fn fits(&self, step: &Step, values: &[Row]) -> bool
        ensures exact { result ≡ fits (model_of self.now) step.now (values_of values.now) }
        ensures short { result ≡ true → length values.now ≤ 4 }
    {
        if step.kind != OUTSIDE_RECEIVE || step.process >= self.count {
            return values.is_empty();
        }
        match self.front(step.process, step.front) {
            Some(front) => takes(&front.action, self.table.rows_of(step.process), values),
            None => values.is_empty(),
        }
    }

    /// Whether a step is taken with these values; else why not.
    pub fn check(&self, step: &Step, values: &[Row]) -> Result<(), TakeRefusal>
        ensures exact { refusal_in result ≡ refusal (model_of self.now) step.now (values_of values.now) }
        ensures short { result ≡ Ok tt → length values.now ≤ 4 }
    {
        if !self.lists(step) {
            return Err(TakeRefusal::NotListed);
        }
        if !self.fits(step, values) {
            return Err(TakeRefusal::Values);
        }
        Ok(())
    }

    // The values that a step exchanges.
    fn exchanged(&self, step: &Step, values: &[Row]) -> Sent
        requires { length values.now ≤ 4 }
        ensures { rows_in result ≡ map row_of (exchanged (model_of self.now) step.now (values_of values.now)) }
    {
        if step.kind == OUTSIDE_RECEIVE {
            return normal(values);
        }
        if step.kind == INTERNAL {
            return normal(&[]);
        }
        match self.front(step.process, step.front) {
            Some(front) => sent_by(&front.action),
            None => normal(&[]),
        }
    }
}

impl Model {
    /// Takes a step that is not refused: who is in it goes on, and the answer is its journal record.
    /// For a caller that has checked it already.
    pub fn perform(&mut self, step: &Step, values: &[Row]) -> Record
        requires free { refusal (model_of self.old) step.now (values_of values.now) ≡ None }
        requires short { length values.now ≤ 4 }
        ensures entered { record_of step.now (map row_of (exchanged (model_of self.old) step.now (values_of values.now))) ≡ Some result }
        ensures after { model_of self.new ≡ after_step (model_of self.old) step.now (values_of values.now) }
    {
        let exchanged = self.exchanged(step, values);
        let Some(record) = Record::new(*step, exchanged.as_slice()) else {
            return unreachable();
        };
        self.go_on(step.process, step.front, exchanged.as_slice());
        if step.kind == MEETING {
            self.go_on(step.partner, step.partner_front, exchanged.as_slice());
        }
        record
    }
}
