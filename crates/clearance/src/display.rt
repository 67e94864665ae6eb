// How an answer and a fault are printed.
ghost use Rattle.clearance.specs.Answers.{answer_text, fault_text};
ghost use Rattle.std.specs.Prelude.{Some};

use crate::answer::{Answer, Fault};
use std::fmt;

impl fmt::Display for Answer {
    ghost output = { λ a. Some (answer_text a) };

    fn fmt<W: fmt::Write>(&self, f: &mut fmt::Formatter<W>) -> fmt::Result {
        let Answer::At(v) = *self;
        write!(f, "at {v}")
    }
}

impl fmt::Display for Fault {
    ghost output = { λ e. Some (fault_text e) };

    fn fmt<W: fmt::Write>(&self, f: &mut fmt::Formatter<W>) -> fmt::Result {
        match *self {
            Fault::No(e) => {
                let number = e.number();
                let place = e.place();
                write!(f, "no {number} {place}")
            }
            Fault::Bad => write!(f, "bad"),
        }
    }
}
