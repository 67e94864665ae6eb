// A call that a line of a script can make. This file holds the type alone, so that the specs can
// name it.

#[derive(Clone, Copy, PartialEq, Eq, Debug)]
pub enum Call {
    // the distance at the point with these coordinates
    Distance(i32, i32, i32),
}
