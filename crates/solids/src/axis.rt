// The number that stands for an axis in a record.
ghost use Rattle.std.specs.Prelude.{◌≡◌};
ghost use Rattle.solids.specs.AxisNumber.{axis_number};
ghost use Rattle.space.specs.Numbered.{KindOf};

use crate::catalogue::Axis;
use space::unknown::Unknown;

impl TryFrom<u16> for Axis {
    type Error = Unknown<u16>;

    ghost try_from_gives = { KindOf axis_number };

    fn try_from(number: u16) -> Result<Self, Unknown<u16>> {
        match number {
            0 => Ok(Axis::X),
            1 => Ok(Axis::Y),
            2 => Ok(Axis::Z),
            _ => Err(Unknown(number)),
        }
    }
}

impl From<Axis> for u16 {
    ghost from_gives = { λ axis number. number ≡ axis_number axis };

    fn from(axis: Axis) -> Self {
        match axis {
            Axis::X => 0,
            Axis::Y => 1,
            Axis::Z => 2,
        }
    }
}
