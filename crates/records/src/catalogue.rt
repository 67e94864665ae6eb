// Records of catalogue solids.
ghost use Rattle.std.specs.Prelude.{◌≡◌, refl};
ghost use Rattle.std.proofs.Math.Dec.{lit≤};
ghost use Rattle.space.specs.At.{at};
ghost use Rattle.records.specs.Apart.{catalogue_apart};
ghost use Rattle.records.specs.Catalogue.{ball_fields, block_fields, plane_fields, drum_fields, centre_field, raw_of, catalogue_record};
ghost use Rattle.records.specs.Reads.{Reads};

use crate::bytes::put_bytes;
use crate::point::point;
use crate::raw::{RawSolid, raw_bytes, read_raw};
use crate::record::Record;
use solids::catalogue::{Axis, Ball, Block, CatalogueSolid, Drum, Plane};
use space::point::Point;

impl Record for CatalogueSolid {
    const LENGTH: usize = 20;

    ghost LENGTH = { 20 };

    ghost written = { catalogue_record };

    ghost sized = { λ x. refl };

    ghost apart = { catalogue_apart };

    ghost short = { lit≤ tt };

    fn read(bytes: &[u8]) -> Option<CatalogueSolid> {
        let raw = read_raw(bytes)?;
        read_fields(raw)
    }

    fn write(&self, out: &mut [u8]) {
        put_bytes(&catalogue_bytes(*self), out);
    }
}

// The solid with these fields, if they keep the rule of its kind. A kind's number stands here and where a
// solid's fields are made alone: an enum between the number and the solid would name each kind once more.
// An Option, and no TryFrom: fields that are nobody's have no error to tell.
fn read_fields(raw: RawSolid) -> Option<CatalogueSolid>
    ensures { Reads raw_of raw result }
{
    match raw.kind {
        1 => Some(CatalogueSolid::Ball(read_ball(raw)?)),
        2 => Some(CatalogueSolid::Block(read_block(raw)?)),
        3 => Some(CatalogueSolid::Plane(read_plane(raw)?)),
        4 => Some(CatalogueSolid::Drum(read_drum(raw)?)),
        _ => None,
    }
}

fn read_centre(raw: RawSolid) -> Option<Point>
    ensures { Reads at (centre_field raw) result }
{
    point(raw.x, raw.y, raw.z)
}

fn read_ball(raw: RawSolid) -> Option<Ball>
    requires { raw.kind ≡ 1 }
    ensures { Reads ball_fields raw result }
{
    if raw.r > 8192 || raw.h0 != 0 || raw.h1 != 0 || raw.h2 != 0 || raw.d != 0 {
        return None;
    }
    let centre = read_centre(raw)?;
    Some(Ball {
        centre,
        radius: raw.r,
    })
}

fn read_block(raw: RawSolid) -> Option<Block>
    requires { raw.kind ≡ 2 }
    ensures { Reads block_fields raw result }
{
    if raw.r > 8192 || raw.h0 > 8192 || raw.h1 > 8192 || raw.h2 > 8192 || raw.d != 0 {
        return None;
    }
    let centre = read_centre(raw)?;
    Some(Block {
        centre,
        half_x: raw.h0,
        half_y: raw.h1,
        half_z: raw.h2,
        radius: raw.r,
    })
}

fn read_plane(raw: RawSolid) -> Option<Plane>
    requires { raw.kind ≡ 3 }
    ensures { Reads plane_fields raw result }
{
    if raw.h0 != 0 || raw.h1 != 0 || raw.h2 != 0 {
        return None;
    }
    let x = u32::from(raw.x.unsigned_abs());
    let y = u32::from(raw.y.unsigned_abs());
    let z = u32::from(raw.z.unsigned_abs());
    if x > 4096 || y > 4096 || z > 4096 {
        return None;
    }
    let squared = x * x + y * y + z * z;
    let length = u32::from(raw.r);
    let shorter = length.saturating_sub(1);
    if squared == 0 || squared > length * length || squared <= shorter * shorter {
        return None;
    }
    if raw.d.unsigned_abs() > 16384 * length {
        return None;
    }
    Some(Plane {
        normal_x: raw.x,
        normal_y: raw.y,
        normal_z: raw.z,
        offset: raw.d,
        length: raw.r,
    })
}

fn read_drum(raw: RawSolid) -> Option<Drum>
    requires { raw.kind ≡ 4 }
    ensures { Reads drum_fields raw result }
{
    if raw.r > 8192 || raw.h0 > 8192 || raw.h2 != 0 || raw.d != 0 {
        return None;
    }
    let axis = Axis::try_from(raw.h1).ok()?;
    let centre = read_centre(raw)?;
    Some(Drum {
        centre,
        radius: raw.r,
        half_height: raw.h0,
        axis,
    })
}

fn catalogue_bytes(solid: CatalogueSolid) -> [u8; 20]
    ensures { result ≡ catalogue_record solid }
{
    raw_bytes(RawSolid::from(solid))
}

// The fields that a solid stands as.
impl From<CatalogueSolid> for RawSolid {
    ghost from_gives = { λ solid raw. raw ≡ raw_of solid };

    fn from(solid: CatalogueSolid) -> Self {
        match solid {
            CatalogueSolid::Ball(s) => RawSolid {
                kind: 1,
                r: s.radius,
                x: s.centre.x,
                y: s.centre.y,
                z: s.centre.z,
                h0: 0,
                h1: 0,
                h2: 0,
                d: 0,
            },
            CatalogueSolid::Block(s) => RawSolid {
                kind: 2,
                r: s.radius,
                x: s.centre.x,
                y: s.centre.y,
                z: s.centre.z,
                h0: s.half_x,
                h1: s.half_y,
                h2: s.half_z,
                d: 0,
            },
            CatalogueSolid::Plane(s) => RawSolid {
                kind: 3,
                r: s.length,
                x: s.normal_x,
                y: s.normal_y,
                z: s.normal_z,
                h0: 0,
                h1: 0,
                h2: 0,
                d: s.offset,
            },
            CatalogueSolid::Drum(s) => RawSolid {
                kind: 4,
                r: s.radius,
                x: s.centre.x,
                y: s.centre.y,
                z: s.centre.z,
                h0: s.half_height,
                h1: u16::from(s.axis),
                h2: 0,
                d: 0,
            },
        }
    }
}
