// The whole list of a node table.
ghost use Rattle.std.specs.Prelude.{◌≡◌, ◌+◌, ◌<◌, ◌≤◌, length, take, drop};
ghost use Rattle.tree.specs.Rows.{is_cut_kind, cut_next, node_entry, whole_entries};

use tree::node::{Blend, Entry, EntryKind, Node, NodeKind};

fn is_cut(node: Node) -> bool
    ensures { result ≡ is_cut_kind node.kind }
{
    node.kind == NodeKind::Cut
}

// Whether the node after this place is a cut.
fn cut_after(nodes: &[Node], i: usize) -> bool
    requires { i < length nodes.now }
    ensures { result ≡ cut_next (drop (i + 1) nodes.now) }
{
    nodes.get(i + 1).is_some_and(|next| is_cut(*next))
}

// A node's entry: a cut becomes a common, and the second operand of a cut, which the cut follows, is
// turned over.
fn entry_of(node: Node, cut_follows: bool) -> Entry
    ensures { result ≡ node_entry cut_follows node }
{
    let kind = match node.kind {
        NodeKind::Solid => EntryKind::Solid,
        NodeKind::Union => EntryKind::Operator(Blend::Union),
        NodeKind::Common | NodeKind::Cut => EntryKind::Operator(Blend::Common),
    };
    Entry {
        kind,
        turned: node.turned != cut_follows,
        number: node.number,
    }
}

// Writes the whole list into the front of a list.
pub(crate) fn write_whole(nodes: &[Node], list: &mut [Entry])
    requires { length nodes.now ≤ length list.old }
    ensures front { take (length nodes.now) list.new ≡ whole_entries nodes.now }
    ensures rest { drop (length nodes.now) list.new ≡ drop (length nodes.now) list.old }
{
    // written by place: after a zip with `iter_mut` a proof knows nothing of what was written
    for (i, node) in nodes.iter().enumerate() {
        list[i] = entry_of(*node, cut_after(nodes, i));
    }
}
