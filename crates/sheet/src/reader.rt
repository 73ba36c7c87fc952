// A place in a line of words.
ghost use Rattle.std.specs.Prelude.{◌≡◌, ◌≤◌, length};

use crate::word::Word;

// The words are read from `at` on, which may be behind the last.
#[derive(Drop)]
pub(crate) struct Reader<'a> {
    pub(crate) words: &'a [Word],
    pub(crate) at: usize,
    ghost inside: { at ≤ length words.now },
}

impl<'a> Reader<'a> {
    pub(crate) fn new(words: &'a [Word]) -> Self
        ensures words { result.words.now ≡ words.now }
        ensures at { result.at ≡ 0 }
    {
        Reader { words, at: 0 }
    }
}
