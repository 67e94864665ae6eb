// A march through a whole scene.
ghost use Rattle.gauges.specs.SceneMeans.{scene_means};
ghost use Rattle.march.specs.Ends.{Ends};
ghost use Rattle.march.specs.Motion.{route};

use crate::whole_scene::WholeScene;
use joints::joint::Joint;
use march::motion::Motion;
use march::outcome::Met;
use march::whole::march;
use scene::scene::Scene;
use solids::solid::Solid;

// How a march through a scene ends: as the scene's distances say.
pub fn march_through<S: Solid, J: Joint>(scene: &Scene<'_, S, J>, motion: Motion) -> Option<Met>
    ensures { Ends (scene_means S.Solid J.Joint scene.now) (route motion) result }
{
    let mut gauge = WholeScene { scene };
    march(motion, &mut gauge).result()
}
