// Cells: the cubes of space that a search goes down through.
#![tactic(auto)]

ghost use Rattle.cells.specs.CellLaw.{CellLaw};

pub mod cell;
pub mod cells;

// Sides, paths, points, radii and children of cubes fit together. The function does nothing.
pub fn cells_law()
    ensures { CellLaw }
{}
