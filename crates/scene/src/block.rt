// A part of a list that is being written. This file holds the type alone, so that the specs can name it.

// An operand that waits: the list that has been written for it starts at a place of the free part and ends where
// the next one starts; at the centre it has this value.
#[derive(Clone, Copy)]
pub(crate) struct Block {
    pub(crate) value: i32,
    pub(crate) start: usize,
}
