// How a motion is made from wider numbers.
ghost use Rattle.std.specs.Prelude.{◌≡◌};
ghost use Rattle.march.specs.Motion.{motion_outcome, seen, triple};

use crate::motion::Motion;
use space::point::Point;
use space::refusal::Refusal;

impl Motion {
    // The motion between these points with this margin, or refusal 12 with the place of the first number
    // that is outside: 1 to 3 for A's coordinates, 4 to 6 for B's, 7 for the margin.
    pub fn new(from: [i32; 3], to: [i32; 3], margin: i32) -> Result<Motion, Refusal>
        ensures { seen result ≡ motion_outcome (triple from) (triple to) margin }
    {
        let from = Point::new(from[0], from[1], from[2])?;
        let to = Point::new(to[0], to[1], to[2]).map_err(|refusal| Refusal::Outside(
            3 + refusal.place(),
        ))?;
        let margin = match u16::try_from(margin) {
            Ok(margin) if margin <= 4095 => margin,
            _ => return Err(Refusal::Outside(7)),
        };
        Ok(Motion { from, to, margin })
    }
}
