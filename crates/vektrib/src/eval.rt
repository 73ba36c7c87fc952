// The command `eval`: the sheet of an expression in prefix form.
use sheet::fault::Fault;
use sheet::sheet::{Sheet, Stop, evaluate};

fn print_sheet(rt: &HostRuntime, sheet: &Sheet) -> anyhow::Result<()> {
    for line in sheet.lines.iter() {
        println!(rt; "{line}")?;
    }
    let value = sheet.value.value();
    println!(rt; "value {value}")?;
    Ok(())
}

fn print_fault(rt: &HostRuntime, texts: &[&str], fault: Fault) -> anyhow::Result<()> {
    let word = fault.word;
    let expected = fault.expected;
    match texts.get(word.saturating_sub(1)) {
        Some(text) => println!(rt; "wrong: word {word}: expected {expected}, found '{text}'")?,
        None => println!(rt; "wrong: word {word}: expected {expected}, found the end of the line")?,
    }
    Ok(())
}

pub fn eval(rt: &HostRuntime, texts: &[&str]) -> anyhow::Result<()> {
    match evaluate(rt.alloc(), texts) {
        Ok(sheet) => print_sheet(rt, &sheet),
        Err(Stop::Wrong(fault)) => print_fault(rt, texts, fault),
        Err(Stop::Memory) => {
            println!(rt; "wrong: there is not enough memory for this line")?;
            Ok(())
        }
    }
}
