// What a descent leads to. This file holds the type alone, so that the specs can name it.

// Not a Result: neither case is a failure, and a caller goes on from both.
#[derive(Clone, Copy)]
pub enum Child {
    // a near cell, with the length of its list; a length, as in a `Pruned`, and not the list as a slice of the free part
    Near(usize),
    // a far cell, with its constant: every distance in it has this sign and at least this size
    Far(i32),
}
