// The whole scene as a gauge: every reading is exact and moves nothing.
ghost use Rattle.gauges.specs.Exact.{ExactReads};
ghost use Rattle.gauges.specs.SceneLaws.{scene_laws};
ghost use Rattle.gauges.specs.SceneMeans.{scene_means};

use joints::joint::Joint;
use march::gauge::Gauge;
use march::reading::Reading;
use scene::scene::Scene;
use solids::solid::Solid;
use space::point::Point;

// A scene that is lent to be read.
#[derive(Drop)]
pub struct WholeScene<'s, 'a, S, J> {
    pub scene: &'s Scene<'a, S, J>,
}

impl<'s, 'a, S: Solid, J: Joint> Gauge for WholeScene<'s, 'a, S, J> {
    // a scene's type says all that it must hold
    ghost holds = { λ _. Unit {0} };

    ghost means = { λ w. scene_means S.Solid J.Joint w.scene.now };

    // what it means stands here again, since a value sees no other member of its `impl`
    ghost reads = { ExactReads (λ w. scene_means S.Solid J.Joint w.scene.now) };

    fn sure(&self, p: Point) -> i32 {
        self.scene.distance(p)
    }

    fn quick(&mut self, p: Point) -> Reading {
        Reading::Exact(self.sure(p))
    }

    ghost laws = { scene_laws S.Solid.own J.Joint.own S.near S.ranged J.smooth (λ w. w.scene.now) };
}
