// How many rows each table of a scene has.
#[derive(Clone, Copy)]
pub struct Counts {
    pub solids: usize,
    pub joints: usize,
    pub nodes: usize,
}

// How many rows each table that the caller lends has.
#[derive(Clone, Copy)]
pub struct Rooms {
    pub solids: usize,
    pub joints: usize,
    pub nodes: usize,
    pub list: usize,
}
