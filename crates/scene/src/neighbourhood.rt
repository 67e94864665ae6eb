// The points that a list is cut down for. This file holds the type alone, so that the specs can name it.
use space::point::Point;

// All points within a radius of a centre.
#[derive(Clone, Copy)]
pub struct Neighbourhood {
    pub centre: Point,
    pub radius: u16,
}
