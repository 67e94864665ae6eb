// The node table of a scene file.
ghost use Rattle.std.specs.Prelude.{◌≡◌, ℕ, ◌*◌, ◌<◌, ◌≤◌, true, map, length, take, drop, MatchOption, MatchResult};
ghost use Rattle.records.specs.Node.{node_record};
ghost use Rattle.scene.specs.Lists.{named, all_named};
ghost use Rattle.scenefile.specs.Checks.{NoNode};
ghost use Rattle.scenefile.specs.Rows.{row, rows, First};
ghost use Rattle.tree.specs.Rows.{node_symbol};

use records::record::Record;
use tree::node::{Node, NodeKind};

// Whether a node names a solid or a joint of the tables.
fn is_within(node: Node, solids: usize, joints: usize) -> bool
    ensures { result ≡ named solids joints (node_symbol node) }
{
    match node.kind {
        NodeKind::Solid => usize::from(node.number) < solids,
        _ => usize::from(node.number) < joints,
    }
}

// The node that a record is of, where it names a solid or a joint of the tables.
fn read_within(bytes: &[u8], solids: usize, joints: usize) -> Option<Node>
    ensures { MatchOption result (NoNode solids joints bytes.now) (λ x. (node_record x ≡ bytes.now) × (named solids joints (node_symbol x) ≡ true)) }
{
    Node::read(bytes).filter(|node| is_within(*node, solids, joints))
}

// Reads a table's nodes, or answers the place of the first record that is none's.
pub(crate) fn read_nodes(
    table: &[u8],
    solids: usize,
    joints: usize,
    into: &mut [Node],
) -> Result<(), usize>
    requires { length table.now ≡ 4 * length into.old }
    ensures { MatchResult result (λ _. (map node_record into.new ≡ rows table.now 0 4 (length into.old)) × (all_named solids joints (map node_symbol into.new) ≡ true) × ((k : ℕ) → k < length into.old → NoNode solids joints (row table.now 0 4 k) → ⊥)) (λ i. First (λ k. NoNode solids joints (row table.now 0 4 k)) (length into.old) i) }
{
    // written by place: after a zip with `iter_mut` a proof knows nothing of what was written
    for (i, record) in table.chunks_exact(Node::LENGTH).enumerate() {
        match read_within(record, solids, joints) {
            Some(node) => into[i] = node,
            None => return Err(i),
        }
    }
    Ok(())
}

// Copies nodes into the front of a table.
pub(crate) fn copy_nodes(nodes: &[Node], table: &mut [Node])
    requires { length nodes.now ≤ length table.old }
    ensures front { take (length nodes.now) table.new ≡ nodes.now }
    ensures rest { drop (length nodes.now) table.new ≡ drop (length nodes.now) table.old }
{
    let n = nodes.len();
    table[0..n].copy_from_slice(nodes);
}
