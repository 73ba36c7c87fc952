// What a step is: who does it with whom, by which fronts, over which channel.
ghost use Rattle.std.specs.Prelude.{◌≡◌, Some};
ghost use Rattle.records.specs.Steps.{alone, closed, has, internal_of, internal, meeting, outside_send, outside_receive, step_text};

use std::fmt;

// The kinds of steps are plain numbers, since a record lies in lent memory, and any seven bytes may be asked about. The
// first two are closed: they need nothing from outside.
/// The kind of a step of one process by itself.
pub const INTERNAL: u8 = 0;

/// The kind of a step in which two processes meet.
pub const MEETING: u8 = 1;

/// The kind of a send that passes the root.
pub const OUTSIDE_SEND: u8 = 2;

/// The kind of a receive that passes the root.
pub const OUTSIDE_RECEIVE: u8 = 3;

/// What a field holds that does not apply.
pub const NOTHING: u8 = 255;

/// A step, or any seven numbers of which it may be asked whether they are one.
#[derive(Clone, Copy, PartialEq, Eq, Debug)]
pub struct Step {
    /// Its kind: one of the four above.
    pub kind: u8,
    /// The process that does it; in a meeting the one that sends.
    pub process: u8,
    /// The number of that process's front.
    pub front: u8,
    /// The process that receives in a meeting.
    pub partner: u8,
    /// The number of the partner's front.
    pub partner_front: u8,
    /// The channel as which it is met or passes the root.
    pub channel: u8,
    /// The message that is exchanged.
    pub message: u8,
}

impl Step {
    // A step of one process, without a partner.
    fn alone(kind: u8, process: u8, front: u8, channel: u8, message: u8) -> Step
        ensures { result ≡ alone kind process front channel message }
    {
        Step {
            kind,
            process,
            front,
            partner: NOTHING,
            partner_front: NOTHING,
            channel,
            message,
        }
    }

    /// The process goes on by itself.
    pub fn internal(process: u8, front: u8) -> Step
        ensures { result ≡ internal process front }
    {
        Step::alone(INTERNAL, process, front, NOTHING, NOTHING)
    }

    /// The process sends, and the partner receives.
    pub fn meeting(
        process: u8,
        front: u8,
        partner: u8,
        partner_front: u8,
        channel: u8,
        message: u8,
    ) -> Step
        ensures { result ≡ meeting process front partner partner_front channel message }
    {
        Step {
            kind: MEETING,
            process,
            front,
            partner,
            partner_front,
            channel,
            message,
        }
    }

    /// The process sends to the outside.
    pub fn outside_send(process: u8, front: u8, channel: u8, message: u8) -> Step
        ensures { result ≡ outside_send process front channel message }
    {
        Step::alone(OUTSIDE_SEND, process, front, channel, message)
    }

    /// The process receives from the outside.
    pub fn outside_receive(process: u8, front: u8, channel: u8, message: u8) -> Step
        ensures { result ≡ outside_receive process front channel message }
    {
        Step::alone(OUTSIDE_RECEIVE, process, front, channel, message)
    }

    /// Whether it needs nothing from outside.
    pub fn is_closed(&self) -> bool
        ensures { result ≡ closed self.now }
    {
        self.kind == INTERNAL || self.kind == MEETING
    }

    /// Whether process `p` is in it: as its process, or as its partner in a meeting.
    pub fn involves(&self, p: u8) -> bool
        ensures { result ≡ has p self.now }
    {
        self.process == p || (self.kind == MEETING && self.partner == p)
    }

    /// Whether it is an internal step of process `p`.
    pub fn internal_to(&self, p: u8) -> bool
        ensures { result ≡ internal_of p self.now }
    {
        self.kind == INTERNAL && self.process == p
    }
}

// Its seven numbers, in the order of its fields.
impl fmt::Display for Step {
    ghost output = { λ s. Some (step_text s) };

    fn fmt<W: fmt::Write>(&self, f: &mut fmt::Formatter<W>) -> fmt::Result {
        let Step {
            kind,
            process,
            front,
            partner,
            partner_front,
            channel,
            message,
        } = *self;
        write!(
            f,
            "{kind} {process} {front} {partner} {partner_front} {channel} {message}"
        )
    }
}
