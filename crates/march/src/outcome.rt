// Where a march ends met; one that ends clear has none. This file holds the type alone, so that the specs can name it.

// The first set point whose distance is not above the margin: its number, and that distance.
#[derive(Clone, Copy, PartialEq, Eq, Debug)]
pub struct Met {
    pub number: u16,
    pub distance: i32,
}
