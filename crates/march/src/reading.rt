// What a gauge answers. This file holds the type alone, so that the specs can name it.

// Both cases are answers, so neither is an absence or an error.
#[derive(Clone, Copy, PartialEq, Eq, Debug)]
pub enum Reading {
    // the distance itself
    Exact(i32),
    // not 0, of the distance's sign, not greater in size
    Bound(i32),
}
