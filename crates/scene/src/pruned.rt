// What comes of cutting a list down. This file holds the type alone, so that the specs can name it.

// The cut-down list's length, and its value at the centre. A length, and not the list as a slice of the free part: of a
// part that a result borrows from, a contract could not say what the rest of it holds.
#[derive(Clone, Copy)]
pub struct Pruned {
    pub length: usize,
    pub value: i32,
}
