// The distance of each kind of solid.
ghost use Rattle.std.specs.Prelude.{◌≡◌, ◌*◌, ◌≤◌, pos, ◌*ℤ◌, ◌≤ℤ◌, unsigned_abs};
ghost use Rattle.space.specs.At.{at};
ghost use Rattle.space.specs.Pt.{apart²};
ghost use Rattle.space.specs.Root.{root};
ghost use Rattle.solids.specs.Ball.{ball_distance};
ghost use Rattle.solids.specs.Block.{block_distance, box_distance, excess, positive_square};
ghost use Rattle.solids.specs.KindLaws.{ball_near, ball_ranged, block_near, block_ranged, drum_near, drum_ranged, probed_near, probed_ranged};
ghost use Rattle.solids.specs.Drum.{drum_distance, along, across²};
ghost use Rattle.solids.specs.Planes.{near_plane, ranged_plane};
ghost use Rattle.solids.specs.Plane.{plane_distance, along_normal};
ghost use Rattle.solids.specs.Probed.{probed_distance};

use crate::catalogue::{Axis, Ball, Block, Drum, Plane};
use crate::probed::Probed;
use crate::solid::Solid;
use space::point::Point;
use space::root::floor_root;

impl Solid for Ball {
    ghost dist = { ball_distance };

    ghost near = { ball_near };

    ghost ranged = { ball_ranged };

    fn distance(&self, p: Point) -> i32 {
        root_of(squared_distance(p, self.centre)) - i32::from(self.radius)
    }
}

impl Solid for Block {
    ghost dist = { block_distance };

    ghost near = { block_near };

    ghost ranged = { block_ranged };

    fn distance(&self, p: Point) -> i32 {
        let x = excess(p.x, self.centre.x, self.half_x);
        let y = excess(p.y, self.centre.y, self.half_y);
        let z = excess(p.z, self.centre.z, self.half_z);
        box_distance(x, y, z) - i32::from(self.radius)
    }
}

impl Solid for Plane {
    ghost dist = { plane_distance };

    ghost near = { near_plane };

    ghost ranged = { ranged_plane };

    fn distance(&self, p: Point) -> i32 {
        (self.along_normal(p) - self.offset).div_euclid(i32::from(self.length))
    }
}

impl Plane {
    // The product of the normal and a point.
    fn along_normal(&self, p: Point) -> i32
        ensures value { result ≡ along_normal self.now (at p) }
        ensures bound { unsigned_abs result ≤ 100663296 }
    {
        product(self.normal_x, p.x) + product(self.normal_y, p.y) + product(self.normal_z, p.z)
    }
}

impl Solid for Drum {
    ghost dist = { drum_distance };

    ghost near = { drum_near };

    ghost ranged = { drum_ranged };

    fn distance(&self, p: Point) -> i32 {
        let side = root_of(squared_across(self.axis, p, self.centre)) - i32::from(self.radius);
        let end = i32::from(along(self.axis, p, self.centre)) - i32::from(self.half_height);
        side.max(end)
    }
}

impl Solid for Probed {
    ghost dist = { probed_distance };

    ghost near = { probed_near };

    ghost ranged = { probed_ranged };

    fn distance(&self, p: Point) -> i32 {
        // a loop, and no `fold`: with one the goal `returns` stayed open
        let mut near = squared_distance(p, self.centres[0]);
        for centre in &self.centres[1..usize::from(self.count)] {
            near = near.min(squared_distance(p, *centre));
        }
        root_of(near) - i32::from(self.radius)
    }
}

// The root of a squared distance.
fn root_of(squared: u32) -> i32
    ensures value { result ≡ pos (root squared) }
    ensures bound { unsigned_abs result ≤ 65535 }
{
    floor_root(squared) as i32
}

fn squared_distance(p: Point, q: Point) -> u32
    ensures { result ≡ apart² (at p) (at q) }
{
    square(p.x.abs_diff(q.x)) + square(p.y.abs_diff(q.y)) + square(p.z.abs_diff(q.z))
}

// Of a difference of two coordinates. Its bound is a condition here and in the two functions that lead here: a type for
// it would wrap a number that is squared at once.
fn square(a: u16) -> u32
    requires { a ≤ 16383 }
    ensures value { result ≡ a * a }
    ensures bound { result ≤ 268402689 }
{
    let a = u32::from(a);
    a * a
}

// The distance along one axis, less the half extent.
fn excess(a: i16, centre: i16, half: u16) -> i32
    ensures { result ≡ excess a centre half }
{
    i32::from(a.abs_diff(centre)) - i32::from(half)
}

// A block's distance, by its excess along each axis.
fn box_distance(x: i32, y: i32, z: i32) -> i32
    requires x_small { unsigned_abs x ≤ 16383 }
    requires y_small { unsigned_abs y ≤ 16383 }
    requires z_small { unsigned_abs z ≤ 16383 }
    ensures value { result ≡ box_distance x y z }
    ensures bound { unsigned_abs result ≤ 65535 }
{
    let greatest = x.max(y).max(z);
    if greatest <= 0 {
        greatest
    } else {
        root_of(positive_square(x) + positive_square(y) + positive_square(z))
    }
}

// The square of a positive number, else 0.
fn positive_square(e: i32) -> u32
    requires { e ≤ℤ pos 16383 }
    ensures value { result ≡ positive_square e }
    ensures bound { result ≤ 268402689 }
{
    if e > 0 { square(e as u16) } else { 0 }
}

// Of a normal's part and a coordinate.
fn product(n: i16, a: i16) -> i32
    requires n_small { unsigned_abs n ≤ 4096 }
    requires a_small { unsigned_abs a ≤ 8192 }
    ensures value { result ≡ n *ℤ a }
    ensures bound { unsigned_abs result ≤ 33554432 }
{
    i32::from(n) * i32::from(a)
}

fn along(axis: Axis, p: Point, q: Point) -> u16
    ensures { result ≡ along axis (at p) (at q) }
{
    match axis {
        Axis::X => p.x.abs_diff(q.x),
        Axis::Y => p.y.abs_diff(q.y),
        Axis::Z => p.z.abs_diff(q.z),
    }
}

fn squared_across(axis: Axis, p: Point, q: Point) -> u32
    ensures { result ≡ across² axis (at p) (at q) }
{
    let x = square(p.x.abs_diff(q.x));
    let y = square(p.y.abs_diff(q.y));
    let z = square(p.z.abs_diff(q.z));
    match axis {
        Axis::X => y + z,
        Axis::Y => x + z,
        Axis::Z => x + y,
    }
}
