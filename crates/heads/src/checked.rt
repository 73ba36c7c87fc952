// Tests that go on or name a fault.
ghost use Rattle.std.specs.Prelude.{◌≡◌};
ghost use Rattle.heads.specs.Checked.{fault as fault_of, ask as asked};

use answers::fault::{FaultKind, Layer, LoadFault};

// Written out as a struct, a fault would take five lines at each place that names one.
pub fn fault(kind: FaultKind, place: usize, layer: Layer) -> LoadFault
    ensures { result ≡ fault_of kind place layer }
{
    LoadFault { kind, place, layer }
}

// Goes on where the test is passed. The library has no test that `?` takes,
// and an `if` with its own `return` would be longer at each place.
pub fn ask(passed: bool, kind: FaultKind, place: usize, layer: Layer) -> Result<(), LoadFault>
    ensures { result ≡ asked passed kind place layer }
{
    if passed {
        Ok(())
    } else {
        Err(fault(kind, place, layer))
    }
}
