// What a path of cells leads to. Each function does nothing; its contract is a theorem about the definitions
// that the code's contracts cite.
#![tactic(auto)]

ghost use Rattle.paths.specs.Held.{HeldLaw};
ghost use Rattle.paths.specs.TwinGaps.{TwinGaps};
ghost use Rattle.paths.specs.TwinPaths.{TwinsHeld};
ghost use Rattle.paths.specs.TwinTables.{TwinTablesLaw};

// At every point of a path's cell, a near cell's tree has the whole tree's value, and a far cell's constant is a
// bound of it; no list along a path is longer, and no stack deeper, than the whole tree's.
pub fn held_law()
    ensures { HeldLaw }
{}

// Along every path twins hold twins, or one far constant, and lists of one length.
pub fn twins_held()
    ensures { TwinsHeld }
{}

// Twins have equally many operators of each joint and gap, at every point.
pub fn twins_gaps()
    ensures { TwinGaps }
{}

// Tables that spell twins give one distance at every point, whole lists of one length, and whole trees that hold
// what is alike along every path.
pub fn twin_tables_law()
    ensures { TwinTablesLaw }
{}
