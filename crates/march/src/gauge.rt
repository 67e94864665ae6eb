// What a gauge is: one distance for each point, under the distance law, and two ways to read it.
ghost use Rattle.std.specs.Prelude.{◌≡◌, ℤ};
ghost use Rattle.march.specs.Kept.{Kept};
ghost use Rattle.march.specs.Laws.{GaugeLaws};
ghost use Rattle.march.specs.declared.reading.Reading.{Reading};
ghost use Rattle.space.specs.At.{at};
ghost use Rattle.space.specs.Pt.{Pt};

use crate::reading::Reading;
use space::point::Point;

pub trait Gauge {
    // what the gauge must hold for its readings, from its making on. Every call that reads through a gauge asks it: a kind
    // whose type says less than it must hold is a kind of gauge too. And every such call promises that the gauge still holds
    // it and means the same, since its caller reads on
    ghost holds: { Self → Type 0 };

    // the distance that it means at a point
    ghost means: { Self → Pt → ℤ };

    // what a quick reading at a point answers, and what gauge it leaves behind
    ghost reads: { Self → Pt → Reading → Self → Type 0 };

    // exactly the distance; it moves nothing
    fn sure(&self, p: Point) -> i32
        requires { holds self.now }
        ensures { result ≡ means self.now (at p) };

    // exact or a bound; it may move the gauge, and never changes what the gauge means
    fn quick(&mut self, p: Point) -> Reading
        requires { holds self.old }
        ensures read { reads self.old (at p) result self.new }
        ensures kept { Kept holds means self.old self.new };

    // every gauge that holds what it must obeys the distance law, and every quick reading keeps that and the meaning,
    // and tells right
    ghost laws: { GaugeLaws holds means reads };
}
