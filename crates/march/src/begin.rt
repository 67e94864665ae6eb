// How a march begins, and what a march at its end tells.
ghost use Rattle.std.specs.Prelude.{◌≡◌};
ghost use Rattle.march.specs.Motion.{route};
ghost use Rattle.march.specs.State.{moving, moving_state};

use crate::motion::Motion;
use crate::moving::{Ended, Moving};
use crate::outcome::Met;

impl Moving {
    // A march at its first set point.
    pub fn begin(motion: Motion) -> Moving
        ensures { moving_state result ≡ moving (route motion) 0 }
    {
        Moving { motion, number: 0 }
    }
}

impl Ended {
    // Where the march ended met; none where it ended clear.
    pub fn result(self) -> Option<Met>
        ensures { result ≡ self.outcome }
    {
        self.outcome
    }
}
