// A checked scene. This file holds the type alone, so that the specs can name it.
ghost use Rattle.std.specs.Prelude.{◌≡◌, ◌≤◌, true, map, length};
ghost use Rattle.scene.specs.Lists.{all_named};
ghost use Rattle.scene.specs.Used.{all_used};
ghost use Rattle.tree.specs.Order.{in_order};
ghost use Rattle.tree.specs.Rows.{node_symbol, whole_entries};

use tree::node::{Entry, Node};

// The tables of a scene, and its whole list. The ghost fields say that the node table is accepted
// and that the list is its whole list; they are owed wherever a `Scene` is made, so a distance of
// tables that nobody has checked does not build.
#[derive(Drop)]
pub struct Scene<'a, S, J> {
    pub solids: &'a [S],
    pub joints: &'a [J],
    pub nodes: &'a [Node],
    pub list: &'a [Entry],
    ghost few_solids: { length solids.now ≤ 512 },
    ghost few_joints: { length joints.now ≤ 511 },
    ghost few_nodes: { length nodes.now ≤ 1023 },
    ghost named: { all_named (length solids.now) (length joints.now) (map node_symbol nodes.now) ≡ true },
    ghost ordered: { in_order (map node_symbol nodes.now) ≡ true },
    ghost used: { all_used (length solids.now) (map node_symbol nodes.now) ≡ true },
    ghost whole: { list.now ≡ whole_entries nodes.now },
}
