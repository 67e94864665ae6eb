// A march on its way and a march at its end. This file holds the types alone, so that the specs can name them.
ghost use Rattle.std.specs.Prelude.{◌≤◌};
ghost use Rattle.setpoints.specs.SetPoint.{reach};
ghost use Rattle.space.specs.At.{at};

use crate::motion::Motion;
use crate::outcome::Met;

// A march on its way: the number of the set point that it looks at next, which is never past the last.
// It can be stepped and nothing else, and a step uses it up.
#[derive(Drop)]
pub struct Moving {
    pub(crate) motion: Motion,
    pub(crate) number: u16,
    ghost within: { number ≤ reach (at motion.from) (at motion.to) },
}

// A march at its end. It can tell its result and nothing else.
#[derive(Drop)]
pub struct Ended {
    pub(crate) outcome: Option<Met>,
}
