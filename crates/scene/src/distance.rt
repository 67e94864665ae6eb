// The distance of a checked scene.
ghost use Rattle.std.specs.Prelude.{map};
ghost use Rattle.scene.specs.Meant.{placed};
ghost use Rattle.space.specs.At.{at};
ghost use Rattle.tree.specs.Distance.{Distance};
ghost use Rattle.tree.specs.Rows.{node_symbol};

use crate::scene::Scene;
use joints::joint::Joint;
use solids::solid::Solid;
use space::point::Point;

impl<'a, S: Solid, J: Joint> Scene<'a, S, J> {
    // The distance at a point: that of the tree which the node table spells, cuts included.
    pub fn distance(&self, p: Point) -> i32
        ensures { Distance (placed S.Solid J.Joint self.now) (map node_symbol self.now.nodes.now) (at p) result }
    {
        self.whole().value(p)
    }
}
