// What remains of a process: the places of its statements, the first of them stored last.
ghost use Rattle.std.specs.Prelude.{◌≡◌, ◌<◌, [], ◌∷◌, length};
ghost use Rattle.processes.specs.Places.{places_of, split_places};

use values::few::Few;

/// The most statements that can remain of a process.
pub const ROOM: u8 = 32;

#[derive(Clone, Copy)]
pub struct Left {
    places: Few<u16, 32>,
}

impl Left {
    pub fn new() -> Left
        ensures { places_of result ≡ [] }
    {
        Left {
            places: Few::new(0),
        }
    }

    // The same with a statement before it.
    pub fn with(self, place: u16) -> Left
        requires { length (places_of self) < 32 }
        ensures { places_of result ≡ place ∷ places_of self }
    {
        let mut places = self.places;
        places.push(place);
        Left { places }
    }

    // The first statement, and those behind it; none at the end.
    pub fn split(self) -> Option<(u16, Left)>
        ensures { split_places result ≡ places_of self }
    {
        let mut places = self.places;
        let first = places.pop()?;
        Some((first, Left { places }))
    }
}
