// Values: an Integer or a Boolean, each of which may be unknown. An unknown one stores 0.
ghost use Rattle.std.specs.Prelude.{◌≡◌, false, pos};

pub mod booleans;
pub mod integers;
pub mod texts;
pub mod values;

// A number from -2147483648 to 2147483647, or unknown. A flag and a number, and no Option: every unknown value stores 0.
#[derive(Clone, Copy)]
pub struct Integer {
    known: bool,
    number: i32,
    ghost zero: { known ≡ false → number ≡ pos 0 },
}

// True, false or unknown, kept like an Integer. False is stored as 0, so an unknown one stores false.
// One generic type for both would need a trait for the stored zero, for a few functions of a line each.
#[derive(Clone, Copy)]
pub struct Boolean {
    known: bool,
    truth: bool,
    ghost zero: { known ≡ false → truth ≡ false },
}

#[derive(Clone, Copy)]
pub enum Value {
    Integer(Integer),
    Boolean(Boolean),
}

// Why a text writes no value.
#[derive(Clone, Copy, PartialEq, Eq, Debug)]
pub enum TextFault {
    NotAValue,
    OutOfRange,
}
