// The sheet of an expression: its words checked and worked out.
ghost use Rattle.std.specs.Prelude.{◌≡◌, IfOk};
ghost use Rattle.sheet.specs.Sheets.{words_of, Answered};
ghost use Rattle.sheet.specs.Trees.{ReadsExpressions};
ghost use Rattle.sheet.specs.declared.sheet.Stop.TheVariants.{Memory, Wrong};

use crate::check::check_words;
use crate::fault::Fault;
use crate::line::Line;
use crate::reader::Reader;
use crate::word::{Word, read_word};
use std::alloc::{AllocError, Global};
use values::row::Row;

// The operations in the order of working, and the value.
#[derive(Drop)]
pub struct Sheet {
    pub lines: Vec<Line>,
    pub value: Row,
}

// Why there is no sheet. An enum of its own, so that `?` turns an error of either kind into it.
#[derive(Clone, Copy)]
pub enum Stop {
    Memory,
    Wrong(Fault),
}

impl From<AllocError> for Stop {
    ghost from_gives = { λ _ r. r ≡ Memory };

    fn from(_error: AllocError) -> Stop {
        Stop::Memory
    }
}

impl From<Fault> for Stop {
    ghost from_gives = { λ f r. r ≡ Wrong f };

    fn from(fault: Fault) -> Stop {
        Stop::Wrong(fault)
    }
}

fn read_words(heap: Global, texts: &[&str]) -> Result<Vec<Word>, AllocError>
    ensures { IfOk result (λ v. v.items ≡ words_of texts.now) }
{
    texts.iter().map(|text| read_word(text)).collect(heap)
}

fn worked_out(heap: Global, words: &[Word]) -> Result<Sheet, Stop>
    ensures { Answered words.now result }
{
    check_words(words)?;
    let mut lines = Vec::new(heap);
    let value = Reader::new(words).work(&mut lines)?;
    Ok(Sheet { lines, value })
}

// The sheet of the expression that the words write.
#[tactic(auto, using(crate::proofs::Accepts::reads_expressions))]
pub fn evaluate(heap: Global, texts: &[&str]) -> Result<Sheet, Stop>
    ensures answer { Answered (words_of texts.now) result }
    ensures law { ReadsExpressions }
{
    let words = read_words(heap, texts)?;
    worked_out(heap, &words)
}
