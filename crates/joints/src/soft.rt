// Soft joints.
ghost use Rattle.joints.specs.Soft.{soft_radius, soft_fillet};
ghost use Rattle.joints.specs.Fillets.{soft_law};

use crate::joint::Joint;
use crate::radius::Radius;

// Rounded as by a piece of a cubic, so that it runs out more gently than a house joint.
#[derive(Clone, Copy)]
pub struct SoftJoint(pub Radius);

impl Joint for SoftJoint {
    ghost radius = { soft_radius };

    ghost fillet = { λ j. soft_fillet (soft_radius j) };

    ghost smooth = { λ j. soft_law j.0.k j.0.positive j.0.limited };

    fn radius(&self) -> u16 {
        self.0.k
    }

    fn fillet(&self, gap: u32) -> u16 {
        // the cube needs up to 34 bits
        let k = u64::from(self.0.k);
        let m = k.saturating_sub(u64::from(gap));
        (m * m * m / (6 * k * k)) as u16
    }
}
