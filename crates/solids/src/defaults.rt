// The solid that a table begins filled with.
ghost use Rattle.solids.specs.Defaults.{IsFirstBall, IsFirstProbed};

use crate::catalogue::{Ball, CatalogueSolid};
use crate::probed::Probed;
use space::point::Point;

// A ball about the origin, of radius 0.
impl Default for CatalogueSolid {
    ghost is_default = { IsFirstBall };

    fn default() -> Self {
        CatalogueSolid::Ball(Ball {
            centre: Point::ORIGIN,
            radius: 0,
        })
    }
}

// One centre at the origin, of radius 0.
impl Default for Probed {
    ghost is_default = { IsFirstProbed };

    fn default() -> Self {
        Probed {
            centres: [Point::ORIGIN; 8],
            count: 1,
            radius: 0,
        }
    }
}
