// A number that stands for nothing. This file holds the type alone, so that the specs can name it.

// What a conversion from a number to a kind hands back, where the number is that of no kind.
#[derive(Clone, Copy, PartialEq, Eq, Debug)]
pub struct Unknown<N>(pub N);
