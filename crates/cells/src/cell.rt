// A cell: a cube of space. This file holds the type alone, so that the specs can name it.
ghost use Rattle.std.specs.Prelude.{◌≤◌};
ghost use Rattle.cells.specs.CellLaw.{HeldBySpace};
ghost use Rattle.cells.specs.Cells.{side};

use space::point::Point;

// A level from 0 to 7 and the low corner. The ghost fields are owed wherever a `Cell` is made or
// changed, so no cube that leaves space can be one.
#[derive(Clone, Copy)]
pub struct Cell {
    pub level: u8,
    pub low: Point,
    ghost level_in: { level ≤ 7 },
    ghost x_in: { HeldBySpace (side level) low.x },
    ghost y_in: { HeldBySpace (side level) low.y },
    ghost z_in: { HeldBySpace (side level) low.z },
}
