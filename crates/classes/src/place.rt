// Where a class stands in its file.
ghost use Rattle.commands.specs.Trees.{Class};
ghost use Rattle.classes.specs.Classes.{ClassOf, Begins};

use heads::class::end_of_class;

/// Where the bytes of a class begin, behind its length.
pub fn class_at(file: &[u8], class: u8) -> usize
    requires { (c : Class) × ClassOf file.now class c }
    ensures { (c : Class) → ClassOf file.now class c → Begins file.now result c }
{
    let mut at = 4;
    // each class is found behind the one before
    for _i in 0..class {
        at = end_of_class(file, at);
    }
    at + 2
}
