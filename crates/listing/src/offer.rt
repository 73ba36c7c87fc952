// A front that a process offers, by what others see of it.
ghost use Rattle.std.specs.Prelude.{◌≡◌};
ghost use Rattle.listing.specs.Offers.{agree};

use values::kind::Kind;

// What a front sends or receives.
#[derive(Clone, Copy, PartialEq, Eq, Debug)]
pub struct Exchange {
    // the channel at the process
    pub channel: u8,
    pub message: u8,
    // the kinds of the values, none where unused
    pub kinds: [Option<Kind>; 4],
}

#[derive(Clone, Copy, PartialEq, Eq, Debug)]
pub enum Role {
    Internal,
    Send(Exchange),
    Receive(Exchange),
}

#[derive(Clone, Copy, PartialEq, Eq, Debug)]
pub struct Offer {
    pub process: u8,
    pub front: u8,
    pub role: Role,
}

impl Exchange {
    // Whether two agree in message, count and kinds; not `==`, as the channels may differ.
    pub(crate) fn agrees(&self, other: &Exchange) -> bool
        ensures { result ≡ agree self.now other.now }
    {
        self.message == other.message && self.kinds == other.kinds
    }
}
