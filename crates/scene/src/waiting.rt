// What waits while a list is worked out or cut down: at most 64 of a kind, in an array, since the library has no heap.
ghost use Rattle.std.specs.Prelude.{◌≡◌, ◌+◌, ◌<◌, [], ◌∷◌, length};

use std::marker::Model;

// Seen as the list of what waits, the last on top.
#[derive(Drop)]
pub(crate) struct Waiting<T> {
    values: [T; 64],
    count: usize,
}

impl<T> Model for Waiting<T> {
    ghost use Rattle.std.specs.Prelude.{◌≤◌, List, reverse, take};

    ghost Value = { List T };

    ghost view = { λ w. reverse (take w.count w.values) };

    ghost invariant = { λ w. w.count ≤ 64 };
}

// How many wait follows from what waits; it is said besides for callers, whose calls would not be proved without.
impl<T: Copy> Waiting<T> {
    // None waits; the rows of the table begin as `first`.
    pub(crate) fn new(first: T) -> Waiting<T>
        ensures { result ≡ [] }
    {
        Waiting {
            values: [first; 64],
            count: 0,
        }
    }

    pub(crate) fn push(&mut self, value: T)
        requires { length self.old < 64 }
        ensures after { self.new ≡ value ∷ self.old }
        ensures more { length self.new ≡ length self.old + 1 }
    {
        self.values[self.count] = value;
        self.count += 1;
    }

    pub(crate) fn pop(&mut self) -> T
        requires { 0 < length self.old }
        ensures value { self.old ≡ result ∷ self.new }
        ensures fewer { length self.new + 1 ≡ length self.old }
        ensures room { length self.new < 64 }
    {
        self.count -= 1;
        self.values[self.count]
    }
}
