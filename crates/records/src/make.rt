// The makes of scene file: which kind of solid goes with which kind of joint.
ghost use Rattle.std.specs.Prelude.{◌≡◌, ℕ, refl};

use crate::record::Record;
use joints::house::HouseJoint;
use joints::joint::Joint;
use joints::soft::SoftJoint;
use solids::catalogue::CatalogueSolid;
use solids::probed::Probed;
use solids::solid::Solid;

// A pair of kinds. The length of a solid's record is its kind's `Record::LENGTH`.
pub trait Make {
    type Solid: Solid + Record + Copy;

    type Joint: Joint + Record + Copy;

    // the make's number in a file's header
    const NUMBER: u16;

    ghost NUMBER: { ℕ };

    // every kind of joint has records of 4 bytes
    ghost joint_length: { Self.Joint.LENGTH ≡ 4 };
}

// Catalogue solids with house joints.
pub struct CatalogueMake;

impl Make for CatalogueMake {
    type Solid = CatalogueSolid;

    type Joint = HouseJoint;

    const NUMBER: u16 = 1;

    ghost NUMBER = { 1 };

    ghost joint_length = { refl };
}

// Probed solids with soft joints.
pub struct ProbedMake;

impl Make for ProbedMake {
    type Solid = Probed;

    type Joint = SoftJoint;

    const NUMBER: u16 = 2;

    ghost NUMBER = { 2 };

    ghost joint_length = { refl };
}
