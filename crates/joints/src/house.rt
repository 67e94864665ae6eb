// House joints.
ghost use Rattle.joints.specs.House.{house_radius, house_fillet};
ghost use Rattle.joints.specs.declared.house.HouseJoint.TheVariants.{Sharp, Rounded};
ghost use Rattle.joints.specs.Fillets.{sharp_law, rounded_law};

use crate::joint::Joint;
use crate::radius::Radius;

// Sharp, or rounded as by a piece of a parabola. No Option<Radius>: a sharp joint is a joint, with a record of its own.
#[derive(Clone, Copy)]
pub enum HouseJoint {
    Sharp,
    Rounded(Radius),
}

impl Joint for HouseJoint {
    ghost radius = { house_radius };

    ghost fillet = { house_fillet };

    ghost smooth = { elim [ Sharp ↦ sharp_law | Rounded r ↦ rounded_law r.k r.positive r.limited ] };

    fn radius(&self) -> u16 {
        match *self {
            HouseJoint::Sharp => 0,
            HouseJoint::Rounded(r) => r.k,
        }
    }

    fn fillet(&self, gap: u32) -> u16 {
        match *self {
            HouseJoint::Sharp => 0,
            HouseJoint::Rounded(r) => {
                let k = u32::from(r.k);
                let m = k.saturating_sub(gap);
                (m * m / (4 * k)) as u16
            }
        }
    }
}
