// The solids of the catalogue as one kind.
ghost use Rattle.solids.specs.Catalogue.{catalogue_distance};
ghost use Rattle.solids.specs.KindLaws.{catalogue_near, catalogue_ranged};

use crate::catalogue::CatalogueSolid;
use crate::solid::Solid;
use space::point::Point;

impl Solid for CatalogueSolid {
    ghost dist = { catalogue_distance };

    ghost near = { catalogue_near };

    ghost ranged = { catalogue_ranged };

    fn distance(&self, p: Point) -> i32 {
        match self {
            CatalogueSolid::Ball(s) => s.distance(p),
            CatalogueSolid::Block(s) => s.distance(p),
            CatalogueSolid::Plane(s) => s.distance(p),
            CatalogueSolid::Drum(s) => s.distance(p),
        }
    }
}
