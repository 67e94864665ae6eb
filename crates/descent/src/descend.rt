// A list cut down for a child, and the child's mark.
ghost use Rattle.std.specs.Prelude.{◌≡◌, map, length};
ghost use Rattle.cells.specs.Cell.{cube};
ghost use Rattle.descent.specs.Descent.{DescentOutcome, ChildSays, ReadyAgain};
ghost use Rattle.scene.specs.Meant.{listed};
ghost use Rattle.scene.specs.Pruned.{RestKept};

use crate::child::Child;
use crate::far::far_constant;
use cells::cell::Cell;
use joints::joint::Joint;
use scene::listing::Listing;
use scene::neighbourhood::Neighbourhood;
use solids::solid::Solid;
use space::refusal::Refusal;
use tree::node::Entry;

// Cuts a cell's list down for a child of the cell, into a free part, and answers what the child holds: its list's
// length where it is near, its constant where it is far. At every point of the child, with a factor of 2 or more,
// that says what the list says. A free part that is shorter than the list is refused with 18 and left alone.
pub fn descend<S: Solid, J: Joint>(
    held: &Listing<S, J>,
    child: Cell,
    factor: u8,
    free: &mut [Entry],
) -> Result<Child, Refusal>
    ensures outcome { DescentOutcome (listed S.Solid J.Joint held.now) factor (cube child) held.now.list.now free.old free.new result }
    ensures says { ChildSays (listed S.Solid J.Joint held.now) factor (cube child) held.now.list.now free.new result }
    ensures rest { RestKept held.now.list.now free.old free.new }
    ensures again { ReadyAgain (length held.now.solids.now) (length held.now.joints.now) free.new result }
{
    let around = Neighbourhood {
        centre: child.centre(),
        radius: child.radius(),
    };
    let pruned = held.prune(around, free)?;
    match far_constant(pruned.value, around.radius, factor) {
        Some(constant) => Ok(Child::Far(constant)),
        None => Ok(Child::Near(pruned.length)),
    }
}
