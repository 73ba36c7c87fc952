// The check of behaviours. One function alone takes both the file and the number of classes, so no struct holds them.
ghost use Rattle.std.specs.Prelude.{◌≡◌};
ghost use Rattle.heads.specs.Checked.{ask as asked};
ghost use Rattle.answers.specs.declared.fault.FaultKind.TheVariants.{Operand, Processes};
ghost use Rattle.answers.specs.declared.fault.Layer.TheVariants.{Behaviour};
ghost use Rattle.files.specs.Behaviours.{check_behaviour, operands_fit, few_processes};

use answers::fault::{FaultKind, Layer, LoadFault};
use commands::behaviour::BehaviourCommand;
use commands::command::read;
use heads::checked::{ask, fault};

// The most processes of a model.
const PROCESSES: u8 = 8;

// The number of channels.
const CHANNELS: u8 = 32;

// Whether the operands of a command are within their bounds: a class that there is, two channels.
fn operands_fit(command: BehaviourCommand, classes: u8, at: usize) -> Result<(), LoadFault>
    ensures { result ≡ asked (operands_fit classes command) Operand at Behaviour }
{
    let fit = match command {
        BehaviourCommand::Proc(class) => class < classes,
        BehaviourCommand::Rename(from, to) => from < CHANNELS && to < CHANNELS,
        BehaviourCommand::Par(_) | BehaviourCommand::Hide(_) => true,
    };
    ask(fit, FaultKind::Operand, at, Layer::Behaviour)
}

// Whether a PROC is one of at most eight, behind so many.
fn few_processes(command: BehaviourCommand, procs: u8, at: usize) -> Result<(), LoadFault>
    ensures { result ≡ asked (few_processes procs command) Processes at Behaviour }
{
    let few = match command {
        BehaviourCommand::Proc(_) => procs < PROCESSES,
        BehaviourCommand::Par(_) | BehaviourCommand::Hide(_) | BehaviourCommand::Rename(..) => true,
    };
    ask(few, FaultKind::Processes, at, Layer::Behaviour)
}

// The place behind the behaviour at `at`, and the PROCs up to there; it may nest `left` deep.
#[tactic(auto, using(crate::proofs::Behaving::unknown, crate::proofs::Behaving::too_deep, crate::proofs::Behaving::behaviour_step))]
pub(crate) fn check_behaviour(
    file: &[u8],
    classes: u8,
    at: usize,
    left: u8,
    procs: u8,
) -> Result<(usize, u8), LoadFault>
    ensures { result ≡ check_behaviour left file.now classes at procs }
{
    let command = read::<BehaviourCommand>(file, at).ok_or(fault(
        FaultKind::Command,
        at,
        Layer::Behaviour,
    ))?;
    ask(left > 0, FaultKind::Depth, at, Layer::Behaviour)?;
    operands_fit(command, classes, at)?;
    few_processes(command, procs, at)?;
    match command {
        BehaviourCommand::Proc(_) => Ok((at + 2, procs + 1)),
        BehaviourCommand::Par(place) => {
            let (end, so_far) = check_behaviour(file, classes, at + 3, left - 1, procs)?;
            ask(
                end == place as usize,
                FaultKind::Command,
                at,
                Layer::Behaviour,
            )?;
            check_behaviour(file, classes, end, left - 1, so_far)
        }
        BehaviourCommand::Hide(_) => check_behaviour(file, classes, at + 5, left - 1, procs),
        BehaviourCommand::Rename(..) => check_behaviour(file, classes, at + 3, left - 1, procs),
    }
}
