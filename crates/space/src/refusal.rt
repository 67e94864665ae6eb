// Why a call is refused. `refusals.rt` has each cause's number, layer and place.

// A table of a scene file.
#[derive(Clone, Copy, PartialEq, Eq, Debug)]
pub enum Table {
    Solids,
    Joints,
    Nodes,
    List,
}

// The part of the product that refuses.
#[derive(Clone, Copy, PartialEq, Eq, Debug)]
pub enum Layer {
    File,
    Record,
    Tree,
    Point,
    Walk,
}

#[derive(Clone, Copy, PartialEq, Eq, Debug)]
pub enum Refusal {
    // the file is shorter than its header
    Short,
    // the file is of another make
    Make,
    // a count of the header is outside its limits
    Count(Table),
    // an offset of the header is not where its table has to begin
    Offset(Table),
    // the file does not end with its last table
    Length,
    // a table of the caller's is shorter than what has to go into it
    Room(Table),
    // a solid record breaks its kind's rule; its number
    Solid(u16),
    // a joint record breaks its kind's rule; its number
    Joint(u16),
    // a node record breaks its rule; its number
    Node(u16),
    // the nodes are no tree in post-order with at most 64 values waiting; the node, or the node count at the end
    Order(u16),
    // no node names this solid
    Unused(u16),
    // a coordinate or a margin is outside its range; the coordinate's place, 1 to 6, or 7 for the margin. A number, and no
    // enum: it is told as it is, and the places of a motion's second point are counted on from the first's
    Outside(u16),
    // the free part of a store is shorter than the list that is cut down into it
    Full,
    // an output is shorter than the file that has to go into it
    Output,
}
