// Taking a step of a model.
ghost use Rattle.std.specs.Prelude.{◌≡◌, ◌<◌, IfSome};
ghost use Rattle.commands.specs.ByteLists.{Bytes};
ghost use Rattle.processes.specs.Evaluation.{values_of};
ghost use Rattle.processes.specs.Stores.{process_stores};
ghost use Rattle.processes.specs.Found.{stored_by, Answers};
ghost use Rattle.steps.specs.Steps.{steps};
ghost use Rattle.steps.specs.Taking.{process_numbered, offered_front, is_in, with_moved};
ghost use Rattle.models.specs.Takes.{FrontTakes};
ghost use Rattle.models.specs.Views.{model_of, bytes_of};

use super::Model;
use super::gathered::MOST_STEPS;
use answers::refusal::TakeRefusal;
use processes::front::Front;
use records::list::RecordList;
use records::step::Step;
use tables::offers::front_of;
use values::row::Row;

impl Model {
    // The front of a number of process `p`; none where there is no such process or front.
    pub(super) fn front(&self, p: u8, number: u8) -> Option<Front>
        ensures front { Answers (bytes_of self.now) (process_numbered (model_of self.now) p).variables result (offered_front (process_numbered (model_of self.now) p) number) }
        ensures stores { let one = process_numbered (model_of self.now) p in IfSome result (λ x. stored_by x.action ≡ process_stores one.variables one.left number) }
        ensures bytes { p < self.now.count → Bytes (bytes_of self.now) }
    {
        if p >= self.count {
            return None;
        }
        let table = &self.table;
        let entry = table.entries[p as usize];
        front_of(
            self.bytes(),
            self.classes,
            &entry,
            self.table.rows_of(p),
            number,
        )
    }

    // Whether a step is listed now.
    pub(super) fn lists(&self, step: &Step) -> bool
        ensures { result ≡ is_in step.now (steps (model_of self.now)) }
    {
        // an array of the most steps that there are: the engine takes nothing from the heap
        let mut memory = [Step::internal(0, 0); MOST_STEPS];
        let mut table = RecordList::new(&mut memory);
        // the table has room
        let _listed = self.list(&mut table);
        table.all().contains(step)
    }
}

impl Model {
    // Process `p` goes on by the front of a number, with the values that it receives.
    // Where there is no such process or front, nothing changes.
    pub(super) fn go_on(&mut self, p: u8, number: u8, got: &[Row])
        requires { FrontTakes (model_of self.old) p number (values_of got.now) }
        ensures { model_of self.new ≡ with_moved (model_of self.old) p number (values_of got.now) }
    {
        if p >= self.count {
            return;
        }
        if let Some(front) = self.front(p, number) {
            self.table.go_on(p, &front, got);
        }
    }
}
