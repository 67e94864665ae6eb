// The rows of a node table and of a list.

#[derive(Clone, Copy, PartialEq, Eq, Debug, Default)]
pub enum NodeKind {
    #[default]
    Solid,
    Union,
    Common,
    Cut,
}

// A row of a scene's node table. Nodes stand in post-order: both operands, then the operator. The number is a field, and
// not one of each kind's own: every kind has one, as every record does.
#[derive(Clone, Copy, PartialEq, Eq, Debug, Default)]
pub struct Node {
    pub kind: NodeKind,
    // whether the node hands up its raw value negated
    pub turned: bool,
    // the number of its solid, or of its operator's joint
    pub number: u16,
}

// The operators of a list.
#[derive(Clone, Copy, PartialEq, Eq, Debug)]
pub enum Blend {
    Union,
    Common,
}

// Not an Option<Blend>: a solid is no operator that is missing.
#[derive(Clone, Copy, PartialEq, Eq, Debug, Default)]
pub enum EntryKind {
    #[default]
    Solid,
    Operator(Blend),
}

// A row of a list that is evaluated: a node, with no cut among the kinds. A type of its own, and not Node over another
// kind: no code serves both, and such a type would be named with its kind in every clause.
#[derive(Clone, Copy, PartialEq, Eq, Debug, Default)]
pub struct Entry {
    pub kind: EntryKind,
    pub turned: bool,
    pub number: u16,
}
