// Lines of standard input.
use std::io::ErrorKind;

pub enum Next {
    Line,
    // a line that is not text, which has been answered
    NotText,
    End,
}

// Reads the next line into `line`.
pub fn next_line(rt: &HostRuntime, line: &mut String) -> anyhow::Result<Next> {
    line.clear();
    match rt.read_line(line) {
        Ok(0) => Ok(Next::End),
        Ok(_) => Ok(Next::Line),
        Err(error) => {
            if error.kind() != ErrorKind::InvalidData {
                return Err(error.into());
            }
            println!(rt; "wrong: the line is not UTF-8 text")?;
            Ok(Next::NotText)
        }
    }
}
