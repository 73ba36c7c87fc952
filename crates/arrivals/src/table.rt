// The table of all arrivals of a behaviour.
ghost use Rattle.std.specs.Prelude.{◌≡◌, ℕ, ◌<◌, replicate, None};
ghost use Rattle.commands.specs.Stands.{BehaviourAt};
ghost use Rattle.commands.specs.Trees.{Behaviour};
ghost use Rattle.arrivals.specs.Bytes.{channel_of};
ghost use Rattle.arrivals.specs.Climbing.{arrival_entry, arrival_table, arrival_in, meeting_in, KeptAt};

use crate::filling::{NONE, repeat_last, walk};
use std::marker::Model;

// Where to, for what leaves the model: the last column of the table, behind those of the processes.
const OUTSIDE: u8 = 8;

/// As what each of 32 channels of 8 processes arrives at each of 9 places where to, if it does.
/// In memory each is a byte, 255 for none.
#[derive(Clone, Copy)]
pub struct Arrivals {
    bytes: [u8; 2304],
}

impl Model for Arrivals {
    ghost use Rattle.std.specs.Prelude.{map};
    ghost use Rattle.std.proofs.Common.{ap};
    ghost use Rattle.arrivals.specs.Bytes.{Entries, channel_of, byte_of, bytes_of_channels};

    ghost Value = { Entries };

    ghost view = { λ a. record { channels = map channel_of a.bytes } };

    ghost inverse = { λ e. record { bytes = map byte_of e.channels } };

    ghost inverse_ok = { λ a h. ap (λ x. record { bytes = x }) (bytes_of_channels a.bytes) };
}

// The channel that a byte stands for.
fn channel_of(byte: u8) -> Option<u8>
    ensures { result ≡ channel_of byte }
{
    if byte == NONE { None } else { Some(byte) }
}

impl Arrivals {
    /// Nothing arrives anywhere.
    pub fn none() -> Arrivals
        ensures entries { result.channels ≡ replicate 2304 None }
        ensures empty { (p to c : ℕ) → arrival_in result.channels p to c ≡ None }
    {
        Arrivals {
            bytes: [NONE; 2304],
        }
    }

    /// The arrivals of the behaviour at `at`.
    pub fn of(file: &[u8], at: usize) -> Arrivals
        requires { (n : ℕ) × (b : Behaviour) × KeptAt file.now at n b }
        ensures { (b : Behaviour) → BehaviourAt file.now at b → result.channels ≡ arrival_table b }
    {
        let mut bytes = [NONE; 2304];
        let count = walk(file, at, 0, &mut bytes);
        repeat_last(&mut bytes, count);
        Arrivals { bytes }
    }

    // Where to is a process, or 8 for outside.
    fn look_up(&self, process: u8, to: u8, channel: u8) -> Option<u8>
        ensures { result ≡ arrival_in self.now.channels process to channel }
    {
        if process < 8 && to < 9 && channel < 32 {
            let index = (process as usize * 9 + to as usize) * 32 + channel as usize;
            channel_of(self.bytes[index])
        } else {
            None
        }
    }

    /// As what the channel of process `p` arrives at the lowest PAR above `p` and `q`.
    pub fn meeting(&self, p: u8, q: u8, channel: u8) -> Option<u8>
        ensures { result ≡ meeting_in self.now.channels p q channel }
    {
        if q < 8 {
            self.look_up(p, q, channel)
        } else {
            None
        }
    }

    /// As what the channel of process `p` passes the root.
    pub fn outside(&self, p: u8, channel: u8) -> Option<u8>
        ensures { result ≡ arrival_in self.now.channels p 8 channel }
    {
        self.look_up(p, OUTSIDE, channel)
    }
}
