// The joint that a table begins filled with.
ghost use Rattle.std.specs.Prelude.{◌≡◌};
ghost use Rattle.joints.specs.declared.house.HouseJoint.TheVariants.{Sharp};

use crate::house::HouseJoint;
use crate::radius::Radius;
use crate::soft::SoftJoint;

impl Default for HouseJoint {
    ghost is_default = { λ j. j ≡ Sharp };

    fn default() -> Self {
        HouseJoint::Sharp
    }
}

// The least radius.
impl Default for SoftJoint {
    ghost is_default = { λ j. j.0.k ≡ 1 };

    fn default() -> Self {
        SoftJoint(Radius { k: 1 })
    }
}
