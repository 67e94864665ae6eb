// A list that can be worked out. This file holds the type alone, so that the specs can name it.
ghost use Rattle.std.specs.Prelude.{◌≡◌, ◌≤◌, true, map, length};
ghost use Rattle.scene.specs.Lists.{all_named};
ghost use Rattle.tree.specs.Order.{in_order};
ghost use Rattle.tree.specs.Rows.{entry_symbol};

use tree::node::Entry;

// A list over tables of solids and joints. The ghost fields say that its entries name rows of the tables and
// that it spells a tree for which at most 64 values wait; they are owed wherever a `Listing` is made.
#[derive(Drop)]
pub struct Listing<'a, S, J> {
    pub solids: &'a [S],
    pub joints: &'a [J],
    pub list: &'a [Entry],
    ghost named: { all_named (length solids.now) (length joints.now) (map entry_symbol list.now) ≡ true },
    ghost ordered: { in_order (map entry_symbol list.now) ≡ true },
    ghost short: { length list.now ≤ 1023 },
}
