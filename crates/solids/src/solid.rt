// What a solid is: one distance for each point, under two laws.
ghost use Rattle.std.specs.Prelude.{◌≡◌, ℤ};
ghost use Rattle.space.specs.At.{at};
ghost use Rattle.space.specs.Laws.{DistanceLaw, DistanceRange};
ghost use Rattle.space.specs.Pt.{Pt};

use space::point::Point;

pub trait Solid {
    // the distance that the solid means at a point, negative inside
    ghost dist: { Self → Pt → ℤ };

    // exactly that distance
    fn distance(&self, p: Point) -> i32
        ensures { result ≡ dist self.now (at p) };

    ghost near: { (s : Self) → DistanceLaw (dist s) };

    ghost ranged: { (s : Self) → DistanceRange (dist s) };
}
