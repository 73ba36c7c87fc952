// The command `rota`: who is served at each turn, by a chooser.
use crate::input::{Next, next_line};
use records::step::Step;
use rota::choice::parse_chooser;
use rota::chosen::Chosen;
use rota::turns::Rota;
use rota::words::parse_step;
use std::ops::ControlFlow;

// Prints a turn, and makes room for the steps of the next.
fn end_turn(
    rt: &HostRuntime,
    rota: &mut Rota<Chosen>,
    closed: &mut Vec<Step>,
) -> anyhow::Result<()> {
    if let Some(turn) = rota.turn(closed.as_slice()) {
        println!(rt; "{turn}")?;
    }
    closed.clear();
    Ok(())
}

// One line of a rota: a step, the end of a turn, or the end of the rota, which breaks off.
fn take_line(
    rt: &HostRuntime,
    rota: &mut Rota<Chosen>,
    closed: &mut Vec<Step>,
    line: &str,
) -> anyhow::Result<ControlFlow<()>> {
    let words: Vec<&str> = line.split_ascii_whitespace().collect(rt.alloc())?;
    match words.as_slice() {
        [] => end_turn(rt, rota, closed)?,
        ["end"] => {
            end_turn(rt, rota, closed)?;
            return Ok(ControlFlow::Break(()));
        }
        _ => match parse_step(words.as_slice()) {
            Ok(step) => closed.push(step)?,
            Err(fault) => println!(rt; "wrong: {fault}")?,
        },
    }
    Ok(ControlFlow::Continue(()))
}

// Follows the lines of a rota to its end or the end of the input.
fn follow(rt: &HostRuntime, chooser: Chosen) -> anyhow::Result<()> {
    let mut rota = Rota::new(chooser);
    let mut closed: Vec<Step> = Vec::new(rt.alloc());
    let mut line = String::new(rt.alloc());
    // a count, since a loop that waits on input has to be seen to end
    for _ in 0..u64::MAX {
        match next_line(rt, &mut line)? {
            Next::Line => {
                if take_line(rt, &mut rota, &mut closed, line.as_str())?.is_break() {
                    return Ok(());
                }
            }
            Next::NotText => {}
            Next::End => return end_turn(rt, &mut rota, &mut closed),
        }
    }
    Ok(())
}

// Passes over the lines of a rota whose chooser is wrong.
fn pass_over(rt: &HostRuntime) -> anyhow::Result<()> {
    let mut line = String::new(rt.alloc());
    // a count, as above
    for _ in 0..u64::MAX {
        match next_line(rt, &mut line)? {
            Next::Line => {
                if line.as_str().trim_ascii() == "end" {
                    return Ok(());
                }
            }
            Next::NotText => {}
            Next::End => return Ok(()),
        }
    }
    Ok(())
}

pub fn rota_of(rt: &HostRuntime, words: &[&str]) -> anyhow::Result<()> {
    match parse_chooser(rt.alloc(), words) {
        Err(fault) => {
            println!(rt; "wrong: {fault}")?;
            pass_over(rt)
        }
        Ok(choice) => follow(rt, choice.chooser()),
    }
}
