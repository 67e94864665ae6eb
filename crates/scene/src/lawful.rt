// What the traits' laws give the theory.
ghost use Rattle.std.specs.Prelude.{List};
ghost use Rattle.tree.specs.Parts.{Lawful, parts};

use joints::joint::Joint;
use solids::solid::Solid;

// Tables of any kinds of solid and joint give lawful parts. The function does nothing.
pub fn parts_lawful<S: Solid, J: Joint>()
    ensures { (solids : List S) (joints : List J) → Lawful (parts S.dist J.radius J.fillet solids joints) }
{}
