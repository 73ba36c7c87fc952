// What a short list holds, and one item more.
ghost use Rattle.std.specs.Prelude.{◌≡◌, ◌<◌, ◌≤◌, [], ◌∷◌, ◌++◌, length, take, MatchOption};
ghost use Rattle.values.specs.Few.{listed};

use crate::few::Few;

impl<T: Copy, const N: usize> Few<T, N> {
    // An empty list; unused places hold the blank.
    pub fn new(blank: T) -> Self
        ensures { listed result ≡ [] }
    {
        Few {
            count: 0,
            room: [blank; N],
        }
    }

    // The first `count` items of an array, or all where it has fewer.
    pub fn first(room: [T; N], count: usize) -> Self
        ensures { listed result ≡ take count room }
    {
        Few {
            count: count.min(N),
            room,
        }
    }

    // All items, in order.
    pub fn as_slice(&self) -> &[T]
        ensures items { result.now ≡ listed self.now }
        ensures few { length result.now ≤ N }
    {
        &self.room[..self.count]
    }

    // One item more.
    pub fn push(&mut self, item: T)
        requires { length (listed self.old) < N }
        ensures { listed self.new ≡ listed self.old ++ item ∷ [] }
    {
        self.room[self.count] = item;
        self.count += 1;
    }

    // Takes the last item, if there is one.
    pub fn pop(&mut self) -> Option<T>
        ensures { MatchOption result ((listed self.old ≡ []) × (listed self.new ≡ [])) (λ x. listed self.old ≡ listed self.new ++ x ∷ []) }
    {
        self.count = self.count.checked_sub(1)?;
        Some(self.room[self.count])
    }
}
