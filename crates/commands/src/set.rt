// Sets of channels.
ghost use Rattle.std.specs.Prelude.{◌≡◌};
ghost use Rattle.commands.specs.Sets.{in_set};

// Whether a set of channels has this one.
pub fn in_set(set: u32, channel: u8) -> bool
    ensures { result ≡ in_set set channel }
{
    channel < 32 && (set >> channel) % 2 == 1
}
