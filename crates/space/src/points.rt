// How a point is made from wider numbers.
ghost use Rattle.std.specs.Prelude.{◌≡◌, MatchResult, false, true};
ghost use Rattle.space.specs.At.{in_range, pt_outcome, seen};
ghost use Rattle.space.specs.Pt.{InRange};
ghost use Rattle.space.specs.declared.refusal.Refusal.TheVariants.{Outside};

use crate::point::Point;
use crate::refusal::Refusal;

impl Point {
    pub const ORIGIN: Point = Point { x: 0, y: 0, z: 0 };

    // The point with these coordinates, or refusal 12 with the place, from 1, of the first that is outside.
    pub fn new(x: i32, y: i32, z: i32) -> Result<Point, Refusal>
        ensures { seen result ≡ pt_outcome x y z }
    {
        Ok(Point {
            x: coordinate(x, 1)?,
            y: coordinate(y, 2)?,
            z: coordinate(z, 3)?,
        })
    }
}

// A number as a coordinate, or refusal 12 with its place.
fn coordinate(a: i32, place: u16) -> Result<i16, Refusal>
    ensures { MatchResult result (λ r. (r ≡ a) × InRange r × (in_range a ≡ true)) (λ e. (e ≡ Outside place) × (in_range a ≡ false)) }
{
    match i16::try_from(a) {
        Ok(a) if -8192 <= a && a <= 8191 => Ok(a),
        _ => Err(Refusal::Outside(place)),
    }
}
