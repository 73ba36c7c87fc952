// The steps of a model.
ghost use Rattle.std.specs.Prelude.{◌≡◌, is_ok, if◌then◌else◌, nat_le};
ghost use Rattle.records.specs.Lists.{items, room_of};
ghost use Rattle.steps.specs.Laws.{StepLaws};
ghost use Rattle.steps.specs.Steps.{steps};
ghost use Rattle.models.specs.Views.{model_of, bytes_of};

use super::Model;
use answers::refusal::NoRoom;
use listing::fill::put_steps;
use listing::offer::{Offer, Role};
use records::list::RecordList;
use records::step::Step;
use tables::offers::put_offers;

/// The most steps that a model can have.
pub const MOST_STEPS: usize = 1088;

// What the memory of offers holds at first.
const NO_OFFER: Offer = Offer {
    process: 0,
    front: 0,
    role: Role::Internal,
};

impl Model {
    // The bytes of the file.
    pub(super) fn bytes(&self) -> &[u8]
        ensures { result.now ≡ bytes_of self.now }
    {
        &self.file[0..self.length]
    }

    /// Empties the table and writes all steps, in their order; a table with room for fewer than 1,088 is refused, and nothing
    /// altered.
    pub fn list(&self, out: &mut RecordList<'_, Step>) -> Result<(), NoRoom>
        ensures room { room_of out.new ≡ room_of out.old }
        ensures answer { is_ok result ≡ nat_le 1088 (room_of out.old) }
        ensures list { items out.new ≡ (if is_ok result then steps (model_of self.now) else items out.old) }
        ensures laws { StepLaws }
    {
        if out.room() < MOST_STEPS {
            return Err(NoRoom);
        }
        // an array of the most offers that there are: the engine takes nothing from the heap
        let mut memory = [NO_OFFER; 64];
        let mut offers = RecordList::new(&mut memory);
        put_offers(
            self.bytes(),
            self.classes,
            &self.table,
            self.count,
            &mut offers,
        );
        out.clear();
        put_steps(offers.all(), &self.arrivals, out);
        Ok(())
    }
}
