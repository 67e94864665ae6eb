// Room for a scene of a make.
ghost use Rattle.std.specs.Prelude.{◌≡◌, IfOk, vec_len};

use scenefile::tables::Tables;
use std::alloc::{AllocError, Global};
use tree::node::{Entry, Node};

// Tables of the greatest size that a file may ask for. Their lengths stand in the contracts of `new` and `of_defaults`.
// Tried as ghost fields: the check then makes no proof of `tables`, which lends four fields at once. Which rows a room
// begins with is of no account.
#[derive(Drop)]
pub struct Room<S, J> {
    solids: Vec<S>,
    joints: Vec<J>,
    nodes: Vec<Node>,
    list: Vec<Entry>,
}

impl<S: Copy, J: Copy> Room<S, J> {
    // Room that begins filled with these rows.
    pub fn new(heap: Global, solid: S, joint: J) -> Result<Self, AllocError>
        ensures { IfOk result (λ m. (vec_len m.solids ≡ 512) × (vec_len m.joints ≡ 511) × (vec_len m.nodes ≡ 1023) × (vec_len m.list ≡ 1023)) }
    {
        let solids = vec![in heap; solid; 512]?;
        let joints = vec![in heap; joint; 511]?;
        let nodes = vec![in heap; Node::default(); 1023]?;
        let list = vec![in heap; Entry::default(); 1023]?;
        Ok(Room {
            solids,
            joints,
            nodes,
            list,
        })
    }
}

impl<S: Default + Copy, J: Default + Copy> Room<S, J> {
    // Room that begins filled with each type's default.
    pub fn of_defaults(heap: Global) -> Result<Self, AllocError>
        ensures { IfOk result (λ m. (vec_len m.solids ≡ 512) × (vec_len m.joints ≡ 511) × (vec_len m.nodes ≡ 1023) × (vec_len m.list ≡ 1023)) }
    {
        Room::new(heap, S::default(), J::default())
    }
}

impl<S, J> Room<S, J> {
    // The tables, lent for one scene.
    pub fn tables(&mut self) -> Tables<'_, S, J>
        ensures solids { result.solids.now ≡ self.old.solids.items }
        ensures joints { result.joints.now ≡ self.old.joints.items }
        ensures nodes { result.nodes.now ≡ self.old.nodes.items }
        ensures list { result.list.now ≡ self.old.list.items }
    {
        Tables {
            solids: self.solids.as_mut_slice(),
            joints: self.joints.as_mut_slice(),
            nodes: self.nodes.as_mut_slice(),
            list: self.list.as_mut_slice(),
        }
    }
}
