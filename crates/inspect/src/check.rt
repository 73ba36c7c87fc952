// The command `check`: whether a model file is admitted.
ghost use Rattle.std.specs.Prelude.{◌≡◌, IfOk};
ghost use Rattle.admission.specs.Read.{read};
ghost use Rattle.inspect.specs.Answers.{check_answer};

use crate::digits::bytes_of;
use admission::load::examine;
use std::alloc::{AllocError, Global};

// Answers for the bytes that words write, or says why they write none.
// The host is passed beside the bytes everywhere: it is what may be done, not data.
pub fn answer_bytes<F: FnOnce(&HostRuntime, &[u8]) -> anyhow::Result<()>>(
    rt: &HostRuntime,
    words: &[&str],
    answer: F,
) -> anyhow::Result<()>
    requires { F.IsAlwaysCallable answer }
{
    match bytes_of(rt.alloc(), words) {
        Ok(file) => answer(rt, file.as_slice())?,
        Err(fault) => println!(rt; "wrong: {fault}")?,
    }
    Ok(())
}

// The answer for the bytes of a file: what loading needs of it, or its first fault, which is an answer too.
pub fn check_answer(heap: Global, file: &[u8]) -> Result<String, AllocError>
    ensures { IfOk result (λ text. text.bytes.items ≡ check_answer (read file.now)) }
{
    match examine(file) {
        Ok(summary) => summary.to_string(heap),
        Err(fault) => fault.to_string(heap),
    }
}

pub fn print_check(rt: &HostRuntime, file: &[u8]) -> anyhow::Result<()> {
    rt.println(check_answer(rt.alloc(), file)?)?;
    Ok(())
}

pub fn check(rt: &HostRuntime, words: &[&str]) -> anyhow::Result<()> {
    answer_bytes(rt, words, print_check)
}
