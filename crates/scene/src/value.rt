// The value of a list at a point, worked out entry by entry for every kind of solid and joint.
ghost use Rattle.std.specs.Prelude.{◌≡◌, ◌^◌, ◌≤◌, true, map, length, unsigned_abs};
ghost use Rattle.scene.specs.Meant.{listed};
ghost use Rattle.scene.specs.Lists.{named, Ready, counted};
ghost use Rattle.space.specs.At.{at};
ghost use Rattle.std.specs.List.{AllByRecursion};
ghost use Rattle.tree.specs.Distance.{Distance};
ghost use Rattle.tree.specs.Rows.{entry_symbol};
ghost use Rattle.tree.specs.Stepped.{stepped};

use crate::joining::handed_up;
use crate::listing::Listing;
use crate::waiting::Waiting;
use joints::joint::Joint;
use solids::solid::Solid;
use space::point::Point;
use tree::node::{Entry, EntryKind};

impl<'a, S: Solid, J: Joint> Listing<'a, S, J> {
    // The value at a point: that of the tree which the list spells.
    pub fn value(&self, p: Point) -> i32
        ensures { Distance (listed S.Solid J.Joint self.now) (map entry_symbol self.now.list.now) (at p) result }
    {
        let mut waiting = Waiting::new(0);
        for entry in self.list {
            self.step(*entry, p, &mut waiting);
        }
        waiting.pop()
    }

    // One entry: its value comes on top of those that wait, in place of its operands' values.
    fn step(&self, entry: Entry, p: Point, waiting: &mut Waiting<i32>)
        requires inside { named (length self.now.solids.now) (length self.now.joints.now) (entry_symbol entry) ≡ true }
        requires ready { Ready (entry_symbol entry) (length waiting.old) }
        requires small { AllByRecursion (λ v. unsigned_abs v ≤ 2 ^ 30) waiting.old }
        ensures after { waiting.new ≡ stepped (listed S.Solid J.Joint self.now) (at p) (entry_symbol entry) waiting.old }
        ensures count { length waiting.new ≡ counted (entry_symbol entry) (length waiting.old) }
    {
        let raw = match entry.kind {
            EntryKind::Solid => self.distance_of(entry.number, p),
            EntryKind::Operator(blend) => {
                let b = waiting.pop();
                let a = waiting.pop();
                self.joined_of(entry.number, blend, a, b)
            }
        };
        waiting.push(handed_up(entry.turned, raw));
    }
}
