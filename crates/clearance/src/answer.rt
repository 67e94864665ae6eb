// What a line of a script is answered. This file holds the types alone, so that the specs can name them.
use space::refusal::Refusal;

#[derive(Clone, Copy, PartialEq, Eq, Debug)]
pub enum Answer {
    // the distance
    At(i32),
}

// Why a line has no answer.
#[derive(Clone, Copy, PartialEq, Eq, Debug)]
pub enum Fault {
    // the call is refused
    No(Refusal),
    // the line is no call
    Bad,
}
