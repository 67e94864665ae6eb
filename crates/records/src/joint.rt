// Records of joints.
ghost use Rattle.std.specs.Prelude.{◌≡◌, refl};
ghost use Rattle.std.proofs.Math.Dec.{lit≤};
ghost use Rattle.records.specs.Apart.{house_apart, soft_apart};
ghost use Rattle.records.specs.Joint.{raw_joint_record, house_fields, soft_fields, house_record, soft_record};
ghost use Rattle.records.specs.Reads.{Reads};

use crate::bytes::put_bytes;
use crate::record::Record;
use joints::house::HouseJoint;
use joints::radius::Radius;
use joints::soft::SoftJoint;

// The fields of a joint's record, before any rule is tested. A form's number stands where it is read and where a joint's
// fields are made: an enum of forms would name each form once more.
#[derive(Clone, Copy)]
struct RawJoint {
    form: u16,
    k: u16,
}

fn read_raw_joint(bytes: &[u8]) -> Option<RawJoint>
    ensures { Reads raw_joint_record bytes.now result }
{
    let [form_low, form_high, k_low, k_high, rest @ ..] = bytes else {
        return None;
    };
    if !rest.is_empty() {
        return None;
    }
    Some(RawJoint {
        form: u16::from_le_bytes([*form_low, *form_high]),
        k: u16::from_le_bytes([*k_low, *k_high]),
    })
}

// The range of k stands with the rule of each form that has one.
impl Record for HouseJoint {
    const LENGTH: usize = 4;

    ghost LENGTH = { 4 };

    ghost written = { house_record };

    ghost sized = { λ x. refl };

    ghost apart = { house_apart };

    ghost short = { lit≤ tt };

    fn read(bytes: &[u8]) -> Option<HouseJoint> {
        let RawJoint { form, k } = read_raw_joint(bytes)?;
        match form {
            0 if k == 0 => Some(HouseJoint::Sharp),
            1 if 1 <= k && k <= 2048 => Some(HouseJoint::Rounded(Radius { k })),
            _ => None,
        }
    }

    fn write(&self, out: &mut [u8]) {
        put_bytes(&house_bytes(*self), out);
    }
}

impl Record for SoftJoint {
    const LENGTH: usize = 4;

    ghost LENGTH = { 4 };

    ghost written = { soft_record };

    ghost sized = { λ x. refl };

    ghost apart = { soft_apart };

    ghost short = { lit≤ tt };

    fn read(bytes: &[u8]) -> Option<SoftJoint> {
        let RawJoint { form, k } = read_raw_joint(bytes)?;
        match form {
            2 if 1 <= k && k <= 2048 => Some(SoftJoint(Radius { k })),
            _ => None,
        }
    }

    fn write(&self, out: &mut [u8]) {
        put_bytes(&soft_bytes(*self), out);
    }
}

fn raw_joint_bytes(joint: RawJoint) -> [u8; 4]
    ensures { result ≡ raw_joint_record joint }
{
    let [form_low, form_high] = joint.form.to_le_bytes();
    let [k_low, k_high] = joint.k.to_le_bytes();
    [form_low, form_high, k_low, k_high]
}

fn house_bytes(joint: HouseJoint) -> [u8; 4]
    ensures { result ≡ house_record joint }
{
    raw_joint_bytes(RawJoint::from(joint))
}

fn soft_bytes(joint: SoftJoint) -> [u8; 4]
    ensures { result ≡ soft_record joint }
{
    raw_joint_bytes(RawJoint::from(joint))
}

impl From<HouseJoint> for RawJoint {
    ghost from_gives = { λ joint raw. raw ≡ house_fields joint };

    fn from(joint: HouseJoint) -> Self {
        match joint {
            HouseJoint::Sharp => RawJoint { form: 0, k: 0 },
            HouseJoint::Rounded(r) => RawJoint { form: 1, k: r.k },
        }
    }
}

impl From<SoftJoint> for RawJoint {
    ghost from_gives = { λ joint raw. raw ≡ soft_fields joint };

    fn from(joint: SoftJoint) -> Self {
        RawJoint {
            form: 2,
            k: joint.0.k,
        }
    }
}
