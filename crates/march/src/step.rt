// One step of a march.
ghost use Rattle.std.specs.Prelude.{◌≡◌};
ghost use Rattle.march.specs.Kept.{Kept};
ghost use Rattle.march.specs.Motion.{route};
ghost use Rattle.march.specs.State.{state_of};
ghost use Rattle.march.specs.Step.{Valued, state_after, Stepped};
ghost use Rattle.space.specs.At.{at};

use crate::gauge::Gauge;
use crate::moving::{Ended, Moving};
use crate::outcome::Met;
use crate::reading::Reading;
use space::point::Point;
use std::ops::ControlFlow;

impl Moving {
    // Looks at the next set point: the march ends met or clear, or goes on from a later set point.
    pub fn step<G: Gauge>(self, gauge: &mut G) -> ControlFlow<Ended, Moving>
        requires { G.holds gauge.old }
        ensures stepped { Stepped G.Gauge (route self.motion) self.number gauge.old gauge.new (state_of result) }
        ensures kept { Kept G.holds G.means gauge.old gauge.new }
    {
        let point = self.motion.set_point(self.number);
        let value = value_at(gauge, point, self.motion.margin);
        self.after(value)
    }

    // The march after a set point at which it went by this value.
    fn after(self, value: i32) -> ControlFlow<Ended, Moving>
        ensures { state_of result ≡ state_after (route self.motion) self.number value }
    {
        let margin = i32::from(self.motion.margin);
        if value <= margin {
            return ControlFlow::Break(Ended {
                outcome: Some(Met {
                    number: self.number,
                    distance: value,
                }),
            });
        }
        let next = u32::from(self.number) + 1 + (value.abs_diff(margin) - 1) / 2;
        if next <= u32::from(self.motion.last()) {
            ControlFlow::Continue(Moving {
                motion: self.motion,
                number: next as u16,
            })
        } else {
            ControlFlow::Break(Ended { outcome: None })
        }
    }
}

// The value that a step goes by: the quick reading, or the sure one where that is a bound not above the margin.
fn value_at<G: Gauge>(gauge: &mut G, point: Point, margin: u16) -> i32
    requires { G.holds gauge.old }
    ensures value { Valued G.Gauge margin (at point) gauge.old gauge.new result }
    ensures kept { Kept G.holds G.means gauge.old gauge.new }
{
    match gauge.quick(point) {
        Reading::Exact(distance) => distance,
        Reading::Bound(bound) => {
            if bound <= i32::from(margin) {
                gauge.sure(point)
            } else {
                bound
            }
        }
    }
}
