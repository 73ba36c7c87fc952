// The command `steps`: the steps that an admitted file permits at its start.
ghost use Rattle.std.specs.Prelude.{◌≡◌, ◌≤◌, Err, IfOk, IfErr, is_ok, if◌then◌else◌};
ghost use Rattle.admission.specs.Read.{read};
ghost use Rattle.records.specs.Lists.{items, room_of};
ghost use Rattle.starts.specs.Answers.{steps_answer};
ghost use Rattle.starts.specs.Firsts.{first_steps};

use answers::fault::LoadFault;
use inspect::check::answer_bytes;
use models::model::{MOST_STEPS, Model};
use records::list::RecordList;
use records::step::Step;
use records::texts::Listing;
use std::alloc::{AllocError, Global};

// Writes the steps of an admitted file at its start; any other is refused with its first fault, and nothing altered.
fn list_first(file: &[u8], out: &mut RecordList<'_, Step>) -> Result<(), LoadFault>
    requires { 1088 ≤ room_of out.old }
    ensures admitted { is_ok result ≡ is_ok (read file.now) }
    ensures fault { IfErr result (λ x. read file.now ≡ Err x) }
    ensures list { items out.new ≡ (if is_ok result then first_steps (read file.now) else items out.old) }
{
    let model = Model::start(file)?;
    // the table has room
    let _listed = model.list(out);
    Ok(())
}

// The answer for the bytes of a file: the steps at its start, or its first fault.
pub fn answer(heap: Global, file: &[u8]) -> Result<String, AllocError>
    ensures { IfOk result (λ text. text.bytes.items ≡ steps_answer (read file.now)) }
{
    let mut memory = [Step::internal(0, 0); MOST_STEPS];
    let mut table = RecordList::new(&mut memory);
    match list_first(file, &mut table) {
        Ok(()) => Listing(table.all()).to_string(heap),
        Err(fault) => fault.to_string(heap),
    }
}

fn print_steps(rt: &HostRuntime, file: &[u8]) -> anyhow::Result<()> {
    rt.println(answer(rt.alloc(), file)?)?;
    Ok(())
}

pub fn steps(rt: &HostRuntime, words: &[&str]) -> anyhow::Result<()> {
    answer_bytes(rt, words, print_steps)
}
