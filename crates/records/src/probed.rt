// Records of probed solids.
ghost use Rattle.std.specs.Prelude.{◌≡◌, refl};
ghost use Rattle.std.proofs.Math.Dec.{lit≤};
ghost use Rattle.solids.specs.Unused.{all_origin};
ghost use Rattle.records.specs.Apart.{probed_apart};
ghost use Rattle.records.specs.Probed.{probed_record};

use crate::bytes::put_bytes;
use crate::point::{point_bytes, read_point};
use crate::record::Record;
use solids::probed::Probed;
use space::point::Point;

impl Record for Probed {
    const LENGTH: usize = 52;

    ghost LENGTH = { 52 };

    ghost written = { probed_record };

    ghost sized = { λ x. refl };

    ghost apart = { probed_apart };

    ghost short = { lit≤ tt };

    fn read(bytes: &[u8]) -> Option<Probed> {
        let [count_low, count_high, radius_low, radius_high, places @ ..] = bytes else {
            return None;
        };
        if places.len() != 48 {
            return None;
        }
        let count = u16::from_le_bytes([*count_low, *count_high]);
        let radius = u16::from_le_bytes([*radius_low, *radius_high]);
        if count < 1 || count > 8 || radius > 1024 {
            return None;
        }
        let mut centres = [Point::ORIGIN; 8];
        // written by place: after a zip with `iter_mut` a proof knows nothing of what was written
        for (i, place) in places.chunks_exact(6).enumerate() {
            centres[i] = read_point(place)?;
        }
        if !all_origin(&centres[usize::from(count)..]) {
            return None;
        }
        Some(Probed {
            centres,
            count: count as u8,
            radius,
        })
    }

    fn write(&self, out: &mut [u8]) {
        put_bytes(&probed_bytes(*self), out);
    }
}

// Whether each of these centres is the origin.
fn all_origin(centres: &[Point]) -> bool
    ensures { result ≡ all_origin centres.now }
{
    centres.iter().all(|centre| *centre == Point::ORIGIN)
}

fn probed_bytes(s: Probed) -> [u8; 52]
    ensures { result ≡ probed_record s }
{
    let mut bytes = [0; 52];
    bytes[0..2].copy_from_slice(&u16::from(s.count).to_le_bytes());
    bytes[2..4].copy_from_slice(&s.radius.to_le_bytes());
    bytes[4..].copy_from_slice(s.centres.map(point_bytes).as_flattened());
    bytes
}
