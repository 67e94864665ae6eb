// A whole march.
ghost use Rattle.march.specs.Ends.{Ends};
ghost use Rattle.march.specs.Kept.{Kept};
ghost use Rattle.march.specs.Motion.{route};
ghost use Rattle.march.specs.Run.{Whole, ByHandLaw};
ghost use Rattle.march.specs.State.{ended};

use crate::gauge::Gauge;
use crate::motion::Motion;
use crate::moving::{Ended, Moving};
use std::ops::ControlFlow;

// A march from its beginning, with every step to its end. It ends as the distances say, and so does any march that is
// begun and stepped by hand, whatever happens between the steps to the gauge or to another of the same meaning.
pub fn march<G: Gauge>(motion: Motion, gauge: &mut G) -> Ended
    requires { G.holds gauge.old }
    ensures ends { Ends (G.means gauge.old) (route motion) result.outcome }
    ensures kept { Kept G.holds G.means gauge.old gauge.new }
    ensures whole { Whole G.Gauge (route motion) gauge.old (ended result.outcome) gauge.new }
    ensures by_hand { ByHandLaw G.Gauge }
{
    let mut moving = Moving::begin(motion);
    loop {
        match moving.step(gauge) {
            ControlFlow::Continue(next) => moving = next,
            ControlFlow::Break(ended) => return ended,
        }
    }
}
