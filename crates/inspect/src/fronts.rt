// The command `fronts`: what a fresh process of each class can do first.
ghost use Rattle.std.specs.Prelude.{◌≡◌, length, is_some, IfSome, Ok};
ghost use Rattle.commands.specs.Trees.{Class, File};
ghost use Rattle.admission.specs.Read.{read};
ghost use Rattle.processes.specs.Stores.{stores};
ghost use Rattle.processes.specs.Found.{front_numbered, stored_by, Answers};
ghost use Rattle.classes.specs.Classes.{ClassOf};
ghost use Rattle.classes.specs.Starts.{FreshOf};
ghost use Rattle.inspect.specs.Offers.{first_fronts};

use crate::check::{answer_bytes, print_check};
use crate::line::Line;
use admission::load::examine;
use classes::fresh::Fresh;
use processes::finding::front_of_places;
use processes::front::Front;

// The front of a number of a fresh process; none where it does not offer it.
// File and process are no struct with a ghost field: such a fact has to have one proof at most, and this one names a class.
fn first_front(file: &[u8], process: Fresh, number: u8) -> Option<Front>
    requires { (c : Class) × FreshOf file.now c process }
    ensures found { (c : Class) → FreshOf file.now c process → Answers file.now c.variables result (front_numbered number (first_fronts c)) }
    ensures stores { (c : Class) → FreshOf file.now c process → IfSome result (λ x. stored_by x.action ≡ stores c.variables c.statement number) }
{
    let variables = &process.rows[..process.variables as usize];
    front_of_places(file, process.left, variables, number)
}

fn is_offered(file: &[u8], process: Fresh, number: u8) -> bool
    requires { (c : Class) × FreshOf file.now c process }
    ensures { (c : Class) → FreshOf file.now c process → result ≡ is_some (front_numbered number (first_fronts c)) }
{
    first_front(file, process, number).is_some()
}

// How many fronts a fresh process offers.
// Not `filter` and `count`: what `is_offered` says for each class is lost in the proof of a chain.
fn count_fronts(file: &[u8], process: Fresh) -> u8
    requires { (c : Class) × FreshOf file.now c process }
    ensures { (c : Class) → FreshOf file.now c process → result ≡ length (first_fronts c) }
{
    let mut count = 0;
    for number in 0..8 {
        if is_offered(file, process, number) {
            count += 1;
        }
    }
    count
}

fn print_class(rt: &HostRuntime, file: &[u8], class: u8) -> anyhow::Result<()>
    requires { (c : Class) × ClassOf file.now class c }
{
    let process = Fresh::of(file, class);
    let count = count_fronts(file, process);
    println!(rt; "class {class} fronts {count}")?;
    // by number: no list of the fronts stands in memory
    for number in 0..8 {
        if let Some(front) = first_front(file, process, number) {
            let line = Line { number, front };
            println!(rt; "{line}")?;
        }
    }
    Ok(())
}

// By number: `Fresh::of` finds a class by it, and no list of them stands in memory.
fn print_classes(rt: &HostRuntime, file: &[u8], count: u8) -> anyhow::Result<()>
    requires { (t : File) × (read file.now ≡ Ok t) × (count ≡ length t.classes) }
{
    for class in 0..count {
        print_class(rt, file, class)?;
    }
    Ok(())
}

fn print_fronts(rt: &HostRuntime, file: &[u8]) -> anyhow::Result<()> {
    match examine(file) {
        Ok(summary) => print_classes(rt, file, summary.classes),
        Err(_) => print_check(rt, file),
    }
}

pub fn fronts(rt: &HostRuntime, words: &[&str]) -> anyhow::Result<()> {
    answer_bytes(rt, words, print_fronts)
}
