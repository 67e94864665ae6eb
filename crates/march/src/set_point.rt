// The set points of a motion.
ghost use Rattle.std.specs.Prelude.{◌≡◌, ◌≤◌, ◌-ℤ◌, unsigned_abs};
ghost use Rattle.march.specs.Motion.{route};
ghost use Rattle.march.specs.Route.{last, point_at};
ghost use Rattle.setpoints.specs.SetPoint.{on_axis};
ghost use Rattle.space.specs.At.{at};
ghost use Rattle.space.specs.Pt.{InRange};

use crate::motion::Motion;
use space::point::Point;

impl Motion {
    // N, the number of the last set point: the greatest coordinate difference.
    pub(crate) fn last(&self) -> u16
        ensures { result ≡ last (route self.now) }
    {
        let (a, b) = (self.from, self.to);
        let across = b.x.abs_diff(a.x).max(b.y.abs_diff(a.y));
        across.max(b.z.abs_diff(a.z))
    }

    // Set point i.
    pub(crate) fn set_point(&self, i: u16) -> Point
        requires { i ≤ last (route self.now) }
        ensures { at result ≡ point_at (route self.now) i }
    {
        let (a, b) = (self.from, self.to);
        let n = self.last();
        Point {
            x: on_axis(a.x, b.x, n, i),
            y: on_axis(a.y, b.y, n, i),
            z: on_axis(a.z, b.z, n, i),
        }
    }
}

// One coordinate of set point i, 0 to n, between two coordinates that differ by at most n.
fn on_axis(a: i16, b: i16, n: u16, i: u16) -> i16
    requires a_in { InRange a }
    requires b_in { InRange b }
    requires few { unsigned_abs (b -ℤ a) ≤ n }
    requires within { i ≤ n }
    ensures value { result ≡ on_axis n a b i }
    ensures inside { InRange result }
{
    if n == 0 {
        return a;
    }
    let scaled = (i32::from(b) - i32::from(a)) * i32::from(i);
    (i32::from(a) + scaled.div_euclid(i32::from(n))) as i16
}
