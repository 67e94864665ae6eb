// Points in records.
ghost use Rattle.std.specs.Prelude.{◌≡◌};
ghost use Rattle.space.specs.At.{at};
ghost use Rattle.records.specs.Point.{point_record};
ghost use Rattle.records.specs.Reads.{Reads};

use space::point::Point;

pub(crate) fn read_point(bytes: &[u8]) -> Option<Point>
    ensures { Reads point_record bytes.now result }
{
    let [x0, x1, y0, y1, z0, z1] = bytes else {
        return None;
    };
    point(
        i16::from_le_bytes([*x0, *x1]),
        i16::from_le_bytes([*y0, *y1]),
        i16::from_le_bytes([*z0, *z1]),
    )
}

pub(crate) fn point(x: i16, y: i16, z: i16) -> Option<Point>
    ensures { Reads at (record { x = x; y = y; z = z }) result }
{
    Point::new(i32::from(x), i32::from(y), i32::from(z)).ok()
}

pub(crate) fn point_bytes(p: Point) -> [u8; 6]
    ensures { result ≡ point_record p }
{
    let [x_low, x_high] = p.x.to_le_bytes();
    let [y_low, y_high] = p.y.to_le_bytes();
    let [z_low, z_high] = p.z.to_le_bytes();
    [x_low, x_high, y_low, y_high, z_low, z_high]
}
