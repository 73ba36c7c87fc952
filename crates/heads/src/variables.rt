// The variables of a class, where they stand in the file.
ghost use Rattle.std.specs.Prelude.{◌≡◌, ◌+◌, ◌*◌, ◌≤◌, length};
ghost use Rattle.std.specs.List.{slice_get};
ghost use Rattle.heads.specs.Heads.{kind_at, kinds_at};

use crate::bytes::byte_at;
use values::kind::Kind;

// The place of the first variable, and how many there are.
#[derive(Clone, Copy)]
pub struct Variables {
    pub at: usize,
    pub count: u8,
}

// The kind that the byte at a place stands for; any but 2 is an Integer's.
pub(crate) fn kind_at(file: &[u8], at: usize) -> Kind
    ensures { result ≡ kind_at file.now at }
{
    Kind::try_from(byte_at(file, at)).unwrap_or(Kind::Integer)
}

impl Variables {
    // The kind of a variable; none where it is absent.
    pub fn kind(self, file: &[u8], variable: u8) -> Option<Kind>
        requires { self.at + 6 * self.count ≤ length file.now }
        ensures { result ≡ slice_get (kinds_at self.count file.now self.at) variable }
    {
        (variable < self.count).then(|| kind_at(file, self.at + 6 * variable as usize))
    }
}
