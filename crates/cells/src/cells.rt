// What a cell tells: its side, radius, centre, children, and which points it has.
ghost use Rattle.std.specs.Prelude.{◌≡◌, suc, ◌*◌, ◌<◌, ◌-ℤ◌, unsigned_abs};
ghost use Rattle.space.specs.At.{at};
ghost use Rattle.cells.specs.Cell.{cube, seen, child_outcome, toward_outcome};
ghost use Rattle.cells.specs.CellLaw.{HeldBySpace};
ghost use Rattle.cells.specs.Cells.{side, radius, whole_cube, centre, part, spans, has, place_toward};

use crate::cell::Cell;
use space::point::Point;

// What every cell of a level has.
#[derive(Clone, Copy)]
struct Level {
    side: u16,
    radius: u16,
}

const LEVELS: [Level; 8] = [
    Level {
        side: 16384,
        radius: 14189,
    },
    Level {
        side: 4096,
        radius: 3548,
    },
    Level {
        side: 1024,
        radius: 887,
    },
    Level {
        side: 256,
        radius: 222,
    },
    Level {
        side: 64,
        radius: 56,
    },
    Level {
        side: 16,
        radius: 14,
    },
    Level { side: 4, radius: 4 },
    Level { side: 1, radius: 0 },
];

const FINEST: u8 = 7;

const CHILDREN: u8 = 64;

impl Cell {
    // Level 0: all of space.
    pub fn whole() -> Cell
        ensures { cube result ≡ whole_cube }
    {
        Cell {
            level: 0,
            low: Point {
                x: -8192,
                y: -8192,
                z: -8192,
            },
        }
    }

    pub fn side(self) -> u16
        ensures { result ≡ side self.level }
    {
        LEVELS[usize::from(self.level)].side
    }

    // How far the cell's points are from its centre at most, rounded up.
    pub fn radius(self) -> u16
        ensures { result ≡ radius self.level }
    {
        LEVELS[usize::from(self.level)].radius
    }

    // The low corner plus half the side, rounded down.
    pub fn centre(self) -> Point
        ensures { at result ≡ centre (cube self) }
    {
        let half = (self.side() / 2) as i16;
        Point {
            x: self.low.x + half,
            y: self.low.y + half,
            z: self.low.z + half,
        }
    }

    // The child with this number, or nothing where the number is above 63 or the cell has no children.
    pub fn child(self, number: u8) -> Option<Cell>
        ensures { seen result ≡ child_outcome (cube self) number }
    {
        if number >= CHILDREN || self.level >= FINEST {
            return None;
        }
        let extent = self.child_side();
        Some(Cell {
            level: self.level + 1,
            low: Point {
                x: part(extent, number % 4, self.low.x),
                y: part(extent, number / 4 % 4, self.low.y),
                z: part(extent, number / 16, self.low.z),
            },
        })
    }

    // Whether the cell has the point.
    pub fn contains(self, p: Point) -> bool
        ensures { result ≡ has (cube self) (at p) }
    {
        let extent = self.side();
        let x = spans(extent, self.low.x, p.x);
        let y = spans(extent, self.low.y, p.y);
        let z = spans(extent, self.low.z, p.z);
        x && y && z
    }

    // The number of the child that has the point, or nothing where the cell has it not or has no children.
    pub fn toward(self, p: Point) -> Option<u8>
        ensures { result ≡ toward_outcome (cube self) (at p) }
    {
        if self.level >= FINEST || !self.contains(p) {
            return None;
        }
        let extent = self.child_side();
        let first = place_toward(extent, self.low.x, p.x);
        let second = place_toward(extent, self.low.y, p.y);
        let third = place_toward(extent, self.low.z, p.z);
        Some(first + 4 * second + 16 * third)
    }

    // The side of the cell's children.
    fn child_side(self) -> u16
        requires { self.level < 7 }
        ensures { result ≡ side (suc self.level) }
    {
        LEVELS[usize::from(self.level) + 1].side
    }
}

// The three functions on one axis take numbers: a struct of extent and low end would be made anew for each axis.

// On one axis: the low end of the part with this place among four parts of this extent.
fn part(extent: u16, place: u8, low: i16) -> i16
    requires few { place < 4 }
    requires held { HeldBySpace (4 * extent) low }
    ensures { result ≡ part extent place low }
{
    low + (u16::from(place) * extent) as i16
}

// On one axis: whether a span of this extent has the coordinate.
fn spans(extent: u16, low: i16, a: i16) -> bool
    ensures { result ≡ spans extent low a }
{
    low <= a && i32::from(a) < i32::from(low) + i32::from(extent)
}

// On one axis: the place of the part that has the coordinate, among four parts of this extent.
fn place_toward(extent: u16, low: i16, a: i16) -> u8
    requires some { 0 < extent }
    requires near { unsigned_abs (a -ℤ low) < 4 * extent }
    ensures value { result ≡ place_toward extent low a }
    ensures few { result < 4 }
{
    (a.abs_diff(low) / extent) as u8
}
