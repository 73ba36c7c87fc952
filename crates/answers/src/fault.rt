// The fault of a file that is refused.
ghost use Rattle.std.specs.Prelude.{◌≡◌, Some};
ghost use Rattle.answers.specs.Numbers.{fault_number, layer_number};
ghost use Rattle.answers.specs.Texts.{fault_text};

use std::error::Error;
use std::fmt;

/// What is wrong in a file.
#[derive(Clone, Copy, PartialEq, Eq, Debug)]
pub enum FaultKind {
    /// The length is outside 4 to 4,096.
    Length,
    /// A wrong byte among the first four.
    FirstBytes,
    /// A class or its head overruns, or a field of the head is out of bounds.
    ClassHead,
    /// A command unknown there, cut short, or with a wrong place; or bytes left over.
    Command,
    /// Nested too deep.
    Depth,
    /// An operand out of bounds.
    Operand,
    /// A part of the wrong kind.
    PartKind,
    /// A SEND or RECV that its class does not declare.
    Undeclared,
    /// A statement with more than eight fronts.
    Fronts,
    /// A ninth PROC.
    Processes,
}

/// The part of a file that a fault is found in.
#[derive(Clone, Copy, PartialEq, Eq, Debug)]
pub enum Layer {
    /// The length and the first four bytes.
    File,
    /// The length of a class, its variables and its declarations.
    ClassHead,
    /// A class's statement.
    Statement,
    /// An expression of a statement.
    Expression,
    /// The behaviour.
    Behaviour,
}

/// The first fault of a file that is refused.
#[derive(Clone, Copy, PartialEq, Eq, Debug)]
pub struct LoadFault {
    /// What is wrong.
    pub kind: FaultKind,
    /// The number of the byte in the file.
    pub place: usize,
    /// The part of the file.
    pub layer: Layer,
}

impl From<FaultKind> for u8 {
    ghost from_gives = { λ k n. n ≡ fault_number k };

    fn from(kind: FaultKind) -> u8 {
        match kind {
            FaultKind::Length => 1,
            FaultKind::FirstBytes => 2,
            FaultKind::ClassHead => 3,
            FaultKind::Command => 4,
            FaultKind::Depth => 5,
            FaultKind::Operand => 6,
            FaultKind::PartKind => 7,
            FaultKind::Undeclared => 8,
            FaultKind::Fronts => 9,
            FaultKind::Processes => 10,
        }
    }
}

impl From<Layer> for u8 {
    ghost from_gives = { λ l n. n ≡ layer_number l };

    fn from(layer: Layer) -> u8 {
        match layer {
            Layer::File => 1,
            Layer::ClassHead => 2,
            Layer::Statement => 3,
            Layer::Expression => 4,
            Layer::Behaviour => 5,
        }
    }
}

impl fmt::Display for LoadFault {
    ghost output = { λ x. Some (fault_text x) };

    fn fmt<W: fmt::Write>(&self, f: &mut fmt::Formatter<W>) -> fmt::Result {
        let number = u8::from(self.kind);
        let layer = u8::from(self.layer);
        write!(f, "refused {number} place {} layer {layer}", self.place)
    }
}

impl Error for LoadFault {}
