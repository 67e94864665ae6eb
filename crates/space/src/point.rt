// A point of space. This file holds the type alone, so that the specs can name it.
ghost use Rattle.space.specs.Pt.{InRange};

// Three whole coordinates from -8,192 to 8,191. The ghost fields are owed wherever a `Point` is
// made or changed, so no value outside the range can be one.
#[derive(Clone, Copy, PartialEq, Eq, Debug)]
pub struct Point {
    pub x: i16,
    pub y: i16,
    pub z: i16,
    ghost x_in: { InRange x },
    ghost y_in: { InRange y },
    ghost z_in: { InRange z },
}
