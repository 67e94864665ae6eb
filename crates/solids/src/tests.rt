// Distances worked out by hand.
use crate::catalogue::{Axis, Ball, Block, CatalogueSolid, Drum, Plane};
use crate::probed::Probed;
use crate::solid::Solid;
use space::point::Point;

const ORIGIN: Point = Point::ORIGIN;

#[test]
fn ball(rt: HostRuntime) {
    let s = CatalogueSolid::Ball(Ball {
        centre: ORIGIN,
        radius: 5,
    });
    assert!(rt; s.distance(Point { x: 3, y: 4, z: 0 }) == 0);
    assert!(rt; s.distance(Point { x: 3, y: 4, z: 12 }) == 8);
}

#[test]
fn plane(rt: HostRuntime) {
    let s = CatalogueSolid::Plane(Plane {
        normal_x: 3,
        normal_y: 4,
        normal_z: 0,
        offset: 10,
        length: 5,
    });
    assert!(rt; s.distance(Point { x: 3, y: 4, z: 9 }) == 3);
    assert!(rt; s.distance(Point { x: 0, y: 2, z: 0 }) == -1);
}

#[test]
fn block(rt: HostRuntime) {
    let s = CatalogueSolid::Block(Block {
        centre: Point { x: 10, y: 0, z: 0 },
        half_x: 2,
        half_y: 3,
        half_z: 4,
        radius: 1,
    });
    assert!(rt; s.distance(Point { x: 10, y: 0, z: 0 }) == -3);
    assert!(rt; s.distance(Point { x: 15, y: 7, z: 0 }) == 4);
}

#[test]
fn drum(rt: HostRuntime) {
    let s = CatalogueSolid::Drum(Drum {
        centre: ORIGIN,
        radius: 5,
        half_height: 2,
        axis: Axis::Y,
    });
    assert!(rt; s.distance(Point { x: 3, y: 10, z: 4 }) == 8);
    assert!(rt; s.distance(Point { x: 6, y: 0, z: 8 }) == 5);
}

#[test]
fn probed(rt: HostRuntime) {
    let first = Point { x: 10, y: 0, z: 0 };
    let second = Point { x: 0, y: 10, z: 0 };
    let s = Probed {
        centres: [
            first, second, ORIGIN, ORIGIN, ORIGIN, ORIGIN, ORIGIN, ORIGIN,
        ],
        count: 2,
        radius: 2,
    };
    assert!(rt; s.distance(Point { x: 0, y: 13, z: 4 }) == 3);
    assert!(rt; s.distance(Point { x: 0, y: 0, z: 1 }) == 8);
}
