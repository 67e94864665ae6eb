// Whether a node table is a tree in post-order, and names every solid.
ghost use Rattle.std.specs.Prelude.{◌≡◌, ◌<◌, ◌≤◌, true, false, map, length, IfSome, MatchOption};
ghost use Rattle.scene.specs.Used.{names, names_it, all_used};
ghost use Rattle.tree.specs.Order.{order_fault};
ghost use Rattle.tree.specs.Rows.{node_symbol};
ghost use Rattle.tree.specs.Spell.{is_solid};

use tree::node::{Node, NodeKind};

// The place of the first node with fewer than two operands or with more than 64 values waiting; the
// node count where not one value waits at the end.
pub(crate) fn find_order_fault(nodes: &[Node]) -> Option<usize>
    ensures value { result ≡ order_fault 0 0 (map node_symbol nodes.now) }
    ensures bound { IfSome result (λ i. i ≤ length nodes.now) }
{
    let mut waiting = 0usize;
    for (i, node) in nodes.iter().enumerate() {
        if is_solid(*node) {
            if waiting >= 64 {
                return Some(i);
            }
            waiting += 1;
        } else {
            if waiting < 2 {
                return Some(i);
            }
            waiting -= 1;
        }
    }
    if waiting == 1 {
        None
    } else {
        Some(nodes.len())
    }
}

fn is_solid(node: Node) -> bool
    ensures { result ≡ is_solid (node_symbol node) }
{
    node.kind == NodeKind::Solid
}

// Whether a node names this solid.
fn is_named(node: Node, solid: usize) -> bool
    ensures { result ≡ names_it solid (node_symbol node) }
{
    is_solid(node) && usize::from(node.number) == solid
}

// Whether some node does.
fn some_named(nodes: &[Node], solid: usize) -> bool
    ensures { result ≡ names solid (map node_symbol nodes.now) }
{
    nodes.iter().any(|node| is_named(*node, solid))
}

// A solid that no node names, where there is one.
pub(crate) fn find_unused(nodes: &[Node], solids: usize) -> Option<usize>
    ensures { MatchOption result (all_used solids (map node_symbol nodes.now) ≡ true) (λ s. (s < solids) × (names s (map node_symbol nodes.now) ≡ false)) }
{
    (0..solids).find(|solid| !some_named(nodes, *solid))
}
