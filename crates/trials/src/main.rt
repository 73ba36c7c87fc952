// Trial sessions from standard input: each is a list of calls on a newly made engine, which are made by one call.
#![tactic(auto)]

use playing::play;
use std::io::{BufRead, BufReader};
use trial::Trial;

mod playing;
mod trial;

fn run(rt: &HostRuntime) -> anyhow::Result<()> {
    let mut trial = Trial::new(rt.alloc());
    for line in BufReader::new(rt.alloc(), rt.reader())?.lines(rt.alloc()) {
        let line = line?;
        let words: Vec<&str> = line.as_str().split_ascii_whitespace().collect(rt.alloc())?;
        if trial.read_line(rt.alloc(), words.as_slice())? {
            play(rt, &trial)?;
            trial = Trial::new(rt.alloc());
        }
    }
    Ok(())
}

fn main(rt: HostRuntime) -> anyhow::Result<()> {
    run(&rt)
}
