// A session: an engine, the chooser that its runs ask, and what it does and answers.
ghost use Rattle.std.specs.Prelude.{◌≡◌, ◌++◌, IfOk, OnOk};
ghost use Rattle.records.specs.Lists.{items, room_of};
ghost use Rattle.rota.specs.Chosen.{named};
ghost use Rattle.engine.specs.Calls.{next, entered};
ghost use Rattle.engine.specs.History.{new};
ghost use Rattle.engine.specs.Lent.{free_in};
ghost use Rattle.calling.specs.Called.{called};

use crate::request::Request;
use crate::state::State;
use crate::texts::answer_of;
use calling::call::Call;
use calling::performing::perform;
use choosers::installed::installed;
use engine::engine::Engine;
use engine::lists::{Journal, StepTable};
use records::step::Step;
use records::texts::Entries;
use rota::choice::{Choice, Fair};
use rota::chosen::Chosen;
use std::alloc::{AllocError, Global};

/// An engine, and the chooser that its runs ask.
#[derive(Drop)]
pub struct Session {
    engine: Engine,
    chooser: Chosen,
}

impl Session {
    ghost use Rattle.session.specs.Sessions.{world_of, call_text, request_text, request_leaves, request_enters};

    /// A newly made engine, whose runs ask the installed chooser: Hold with K 3 over Seniority.
    pub fn new() -> Session
        ensures { world_of result ≡ new (named (Choice.Hold 3 Fair.Seniority)) }
    {
        Session {
            engine: Engine::new(),
            chooser: Chosen::HoldSeniority(installed()),
        }
    }

    // Makes a call, with a fresh step table of this room.
    // Where memory runs out the call was made or not, and the program ends; so it is in `answer`.
    fn make(
        &mut self,
        heap: Global,
        call: &Call<'_>,
        room: u16,
        journal: &mut Journal<'_>,
    ) -> Result<String, AllocError>
        ensures text { IfOk result (λ text. text.bytes.items ≡ call_text (called call.now room (free_in journal.old)) (world_of self.old)) }
        ensures leaves { OnOk result (world_of self.new ≡ next (called call.now room (free_in journal.old)) (world_of self.old)) }
        ensures journal { OnOk result (items journal.new.list ≡ items journal.old.list ++ entered (called call.now room (free_in journal.old)) (world_of self.old)) }
        ensures journal_room { OnOk result (room_of journal.new.list ≡ room_of journal.old.list) }
    {
        let mut memory = vec![in heap; Step::internal(0, 0); room as usize]?;
        let mut table = StepTable::new(memory.as_mut_slice());
        let before = journal.count();
        let answer = perform(
            &mut self.engine,
            call,
            &mut self.chooser,
            &mut table,
            journal,
        );
        answer_of(heap, answer, table.all(), &journal.all()[before..])
    }

    /// Does what is asked, and says what came of it.
    pub fn answer(
        &mut self,
        heap: Global,
        request: Request,
        journal: &mut Journal<'_>,
    ) -> Result<String, AllocError>
        ensures text { IfOk result (λ text. text.bytes.items ≡ request_text request self.old (items journal.old.list) (free_in journal.old)) }
        ensures leaves { OnOk result (world_of self.new ≡ request_leaves request (free_in journal.old) (world_of self.old)) }
        ensures journal { OnOk result (items journal.new.list ≡ items journal.old.list ++ request_enters request (free_in journal.old) (world_of self.old)) }
        ensures journal_room { OnOk result (room_of journal.new.list ≡ room_of journal.old.list) }
    {
        match request {
            Request::Load { file } => {
                let call = Call::Load {
                    file: file.as_slice(),
                };
                self.make(heap, &call, 0, journal)
            }
            Request::List { room } => self.make(heap, &Call::List, room, journal),
            Request::Take { step, values } => {
                let call = Call::Take {
                    step,
                    values: values.as_slice(),
                };
                self.make(heap, &call, 0, journal)
            }
            Request::Run { budget, room } => self.make(heap, &Call::Run { budget }, room, journal),
            Request::Choose { choice } => {
                let text = format!(in heap; "chooser {choice}")?;
                self.chooser = choice.chooser();
                Ok(text)
            }
            Request::Journal => Entries(journal.all()).to_string(heap),
            Request::NewJournal { room } => format!(in heap; "journal of room {room}"),
            Request::State => State(&self.engine).to_string(heap),
        }
    }
}
