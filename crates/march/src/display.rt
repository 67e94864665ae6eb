// How the end of a march that met something is printed.
ghost use Rattle.march.specs.Printed.{met_text};
ghost use Rattle.std.specs.Prelude.{Some};

use crate::outcome::Met;
use std::fmt;

impl fmt::Display for Met {
    ghost output = { λ m. Some (met_text m) };

    fn fmt<W: fmt::Write>(&self, f: &mut fmt::Formatter<W>) -> fmt::Result {
        let Met { number, distance } = *self;
        write!(f, "met {number} {distance}")
    }
}
