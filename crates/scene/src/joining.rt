// What one entry comes to: a solid's distance, what an operator makes of its operands' values, and whether it drops out.
// That a value is at most 2^30 is a condition and no type: an operator moves it by up to 1,024, so no type of values
// would be kept by it.
ghost use Rattle.std.specs.Prelude.{◌≡◌, ◌+◌, ◌*◌, ◌^◌, ◌<◌, ◌≤◌, length, nat_lt, unsigned_abs};
ghost use Rattle.space.specs.At.{at};
ghost use Rattle.tree.specs.Parts.{solid_distance, joint_fillet, joint_radius};
ghost use Rattle.tree.specs.Rows.{blend_op};
ghost use Rattle.tree.specs.Tree.{gap, joined, handed};

use crate::listing::Listing;
use joints::joint::Joint;
use solids::solid::Solid;
use space::point::Point;
use tree::node::Blend;

impl<'a, S: Solid, J: Joint> Listing<'a, S, J> {
    // The distance of the solid with this number.
    pub(crate) fn distance_of(&self, number: u16, p: Point) -> i32
        requires { number < length self.now.solids.now }
        ensures value { result ≡ solid_distance S.dist self.now.solids.now number (at p) }
        ensures bound { unsigned_abs result ≤ 32767 }
    {
        self.solids[usize::from(number)].distance(p)
    }

    // What an operator makes of two values with the joint of this number: the lesser, less the fillet, or the
    // greater, plus the fillet.
    pub(crate) fn joined_of(&self, number: u16, blend: Blend, a: i32, b: i32) -> i32
        requires inside { number < length self.now.joints.now }
        requires a_small { unsigned_abs a ≤ 2 ^ 30 }
        requires b_small { unsigned_abs b ≤ 2 ^ 30 }
        ensures value { result ≡ joined (blend_op blend) (joint_fillet J.fillet self.now.joints.now number) a b }
        ensures bound { unsigned_abs result ≤ 2 ^ 30 + 1024 }
    {
        let fillet = i32::from(self.joints[usize::from(number)].fillet(a.abs_diff(b)));
        match blend {
            Blend::Union => a.min(b) - fillet,
            Blend::Common => a.max(b) + fillet,
        }
    }

    // Whether the gap of two values is above k + 2R, with k the radius of the joint of this number and R `within`.
    pub(crate) fn drops_out(&self, number: u16, within: u16, a: i32, b: i32) -> bool
        requires { number < length self.now.joints.now }
        ensures { result ≡ nat_lt (joint_radius J.radius self.now.joints.now number + 2 * within) (gap a b) }
    {
        a.abs_diff(b) > u32::from(self.joints[usize::from(number)].radius()) + 2 * u32::from(within)
    }
}

// A raw value, negated where the node is turned.
pub(crate) fn handed_up(turned: bool, raw: i32) -> i32
    requires { unsigned_abs raw ≤ 2 ^ 30 + 1024 }
    ensures { result ≡ handed turned raw }
{
    if turned { -raw } else { raw }
}
