// The check of a file, with what it means that a file is admitted.
ghost use Rattle.std.specs.Prelude.{◌≡◌, is_ok, Decides};
ghost use Rattle.files.specs.Files.{check_file};
ghost use Rattle.files.specs.Summaries.{summed};
ghost use Rattle.admission.specs.Admission.{Admitted, Admits};
ghost use Rattle.admission.specs.Read.{read, ReadAs, ReadsTrees};

use answers::fault::LoadFault;
use files::file::{Summary, check_file};

// What loading needs of an admitted file, or the first fault of any other.
pub fn examine(file: &[u8]) -> Result<Summary, LoadFault>
    ensures exact { summed result ≡ check_file file.now }
    ensures admitted { Decides (is_ok result) (Admitted file.now) }
    ensures read { ReadAs result (read file.now) }
    ensures law { Admits }
    ensures trees { ReadsTrees }
{
    check_file(file)
}
