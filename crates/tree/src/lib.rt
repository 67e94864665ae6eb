// The theory of scenes: trees of solids, their distance, and their post-order lists. Each function
// does nothing; its contract is a theorem about the definitions that the code's contracts cite.
#![tactic(auto)]

ghost use Rattle.tree.specs.Far.{FarLaw};
ghost use Rattle.tree.specs.Order.{OrderLaw};
ghost use Rattle.tree.specs.Prune.{PruneLaw};
ghost use Rattle.tree.specs.Rows.{EntriesLaw};
ghost use Rattle.tree.specs.Smaller.{SmallerLaw};
ghost use Rattle.tree.specs.Twins.{TwinLaw, TwinsPruned};
ghost use Rattle.tree.specs.ValueLaw.{OperatorsLaw, ValueLaw};
ghost use Rattle.tree.specs.Whole.{WholeLaw};

pub mod node;
pub mod node_kind;

// A list has no fault exactly when it spells a tree of depth 64 at most, and it spells one tree only.
pub fn order_law()
    ensures { OrderLaw }
{}

// The whole list spells the whole tree, and the whole tree has the tree's distance at every point.
pub fn whole_law()
    ensures { WholeLaw }
{}

// The entries that a node table's rows are made into are the symbols of the whole list.
pub fn entries_law()
    ensures { EntriesLaw }
{}

// Union and common are monotone in both operands and shift with them; a cut is a common.
pub fn operators_law()
    ensures { OperatorsLaw }
{}

// Every tree of lawful parts obeys the distance law.
pub fn value_law()
    ensures { ValueLaw }
{}

// A pruned tree has the tree's value at every point within R of the centre, however many operators drop
// out one above the other.
pub fn prune_law()
    ensures { PruneLaw }
{}

// Twins have equal values at every point, and equally long lists.
pub fn twin_law()
    ensures { TwinLaw }
{}

// Pruning takes twins to twins.
pub fn twins_pruned()
    ensures { TwinsPruned }
{}

// The constant of a far cell is not 0, of the distance's sign and not greater in size, at every point within
// R of the centre.
pub fn far_law()
    ensures { FarLaw }
{}

// Pruning never lengthens a list or deepens its stack.
pub fn smaller_law()
    ensures { SmallerLaw }
{}
