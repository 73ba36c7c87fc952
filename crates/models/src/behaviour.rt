// The processes of a behaviour in a file.
ghost use Rattle.std.specs.Prelude.{◌≡◌, ◌<◌, ◌≤◌, slice_index};
ghost use Rattle.commands.specs.Stands.{BehaviourAt};
ghost use Rattle.commands.specs.Trees.{Behaviour};
ghost use Rattle.admission.specs.Conditions.{processes};
ghost use Rattle.steps.specs.Models.{process_classes};

use commands::behaviour::BehaviourCommand;
use commands::command::read;

// How many processes the behaviour at `at` has.
// File and place stay parameters: a struct of both could not hold that a behaviour stands there, since a ghost field is a
// fact with one proof at most.
fn processes_in(file: &[u8], at: usize) -> u8
    requires { (b : Behaviour) × BehaviourAt file.now at b × (processes b ≤ 8) }
    ensures { (b : Behaviour) → BehaviourAt file.now at b → result ≡ processes b }
{
    let Some(command) = read::<BehaviourCommand>(file, at) else {
        return unreachable();
    };
    match command {
        BehaviourCommand::Proc(_class) => 1,
        BehaviourCommand::Par(second) => {
            let first = processes_in(file, at + 3);
            let other = processes_in(file, second as usize);
            first + other
        }
        BehaviourCommand::Hide(_set) => processes_in(file, at + 5),
        BehaviourCommand::Rename(_from, _to) => processes_in(file, at + 3),
    }
}

// The class of a process of the behaviour at `at`, in file order of their PROC.
// A PAR's parts are counted anew for each process that is looked for: at most eight, and only at a load.
pub(crate) fn process_class(file: &[u8], at: usize, process: u8) -> u8
    requires { (b : Behaviour) × BehaviourAt file.now at b × (processes b ≤ 8) × (process < processes b) }
    ensures { (b : Behaviour) → BehaviourAt file.now at b → process < processes b → result ≡ slice_index (process_classes b) process }
{
    let Some(command) = read::<BehaviourCommand>(file, at) else {
        return unreachable();
    };
    match command {
        BehaviourCommand::Proc(class) => class,
        BehaviourCommand::Par(second) => {
            let first = processes_in(file, at + 3);
            if process < first {
                process_class(file, at + 3, process)
            } else {
                process_class(file, second as usize, process - first)
            }
        }
        BehaviourCommand::Hide(_set) => process_class(file, at + 5, process),
        BehaviourCommand::Rename(_from, _to) => process_class(file, at + 3, process),
    }
}
