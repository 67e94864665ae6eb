// The kinds of solid that a scene file can hold. Each type has its rule in ghost fields, so no
// record that breaks the rule can be made. This file holds the types alone, so that the specs can
// name them.
ghost use Rattle.std.specs.Prelude.{◌-◌, ◌*◌, ◌<◌, ◌≤◌, unsigned_abs};
ghost use Rattle.solids.specs.Normal.{normal²};

use space::point::Point;

// All that is at most `radius` from the centre.
#[derive(Clone, Copy)]
pub struct Ball {
    pub centre: Point,
    pub radius: u16,
    ghost radius_in: { radius ≤ 8192 },
}

// An upright box about the centre, rounded by `radius`.
#[derive(Clone, Copy)]
pub struct Block {
    pub centre: Point,
    pub half_x: u16,
    pub half_y: u16,
    pub half_z: u16,
    pub radius: u16,
    ghost half_x_in: { half_x ≤ 8192 },
    ghost half_y_in: { half_y ≤ 8192 },
    ghost half_z_in: { half_z ≤ 8192 },
    ghost radius_in: { radius ≤ 8192 },
}

// The half space behind a plane. `length` is the least whole number whose square is at least the
// normal's; the normal is not all 0, so it is at least 1.
#[derive(Clone, Copy)]
pub struct Plane {
    pub normal_x: i16,
    pub normal_y: i16,
    pub normal_z: i16,
    pub offset: i32,
    pub length: u16,
    ghost normal_x_in: { unsigned_abs normal_x ≤ 4096 },
    ghost normal_y_in: { unsigned_abs normal_y ≤ 4096 },
    ghost normal_z_in: { unsigned_abs normal_z ≤ 4096 },
    ghost not_zero: { 0 < normal² normal_x normal_y normal_z },
    ghost long_enough: { normal² normal_x normal_y normal_z ≤ length * length },
    ghost least: { (length - 1) * (length - 1) < normal² normal_x normal_y normal_z },
    ghost offset_in: { unsigned_abs offset ≤ 16384 * length },
}

#[derive(Clone, Copy, PartialEq, Eq, Debug)]
pub enum Axis {
    X,
    Y,
    Z,
}

// A cylinder about a line through the centre along an axis.
#[derive(Clone, Copy)]
pub struct Drum {
    pub centre: Point,
    pub radius: u16,
    pub half_height: u16,
    pub axis: Axis,
    ghost radius_in: { radius ≤ 8192 },
    ghost half_height_in: { half_height ≤ 8192 },
}

#[derive(Clone, Copy)]
pub enum CatalogueSolid {
    Ball(Ball),
    Block(Block),
    Plane(Plane),
    Drum(Drum),
}
