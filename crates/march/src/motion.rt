// Where a march goes. This file holds the type alone, so that the specs can name it.
ghost use Rattle.std.specs.Prelude.{◌≤◌};

use space::point::Point;

// From a point to a point, with a margin of 0 to 4,095.
#[derive(Clone, Copy)]
pub struct Motion {
    pub from: Point,
    pub to: Point,
    pub margin: u16,
    ghost margin_in: { margin ≤ 4095 },
}
