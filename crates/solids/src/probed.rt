// A solid known by touch. This file holds the type alone, so that the specs can name it.
ghost use Rattle.std.specs.Prelude.{◌≡◌, ◌≤◌, true, length};
ghost use Rattle.solids.specs.Unused.{unused_at_origin};

use space::point::Point;

// All that is at most `radius` from one of the first `count` centres; the others are the origin. An array and a count,
// and no Vec: rows are copied into tables of the caller's, and the library has no heap.
#[derive(Clone, Copy)]
pub struct Probed {
    pub centres: [Point; 8],
    pub count: u8,
    pub radius: u16,
    // in clauses an array is a list, and its type does not say how long
    ghost eight: { length centres ≡ 8 },
    ghost some: { 1 ≤ count },
    ghost count_in: { count ≤ 8 },
    ghost radius_in: { radius ≤ 1024 },
    ghost unused: { unused_at_origin count centres ≡ true },
}
