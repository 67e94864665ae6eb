// All that a scene file is checked for, in rising number of the refusal.
ghost use Rattle.std.specs.Prelude.{◌≡◌, ◌≤◌, length, take, MatchResult};
ghost use Rattle.records.specs.Format.{format};
ghost use Rattle.scenefile.specs.Checks.{◌▸◌, SolidsCheck, JointsCheck, NodesCheck, OrderCheck, UnusedCheck, RowsFine, TreeFine, Refused, Checked};

use crate::counts::Rooms;
use crate::file::File;
use crate::nodes::read_nodes;
use crate::order::{find_order_fault, find_unused};
use crate::rows::first_bad;
use records::make::Make;
use records::record::Record;
use space::refusal::Refusal;
use tree::node::Node;

// Reads the nodes of a file into the front of a table, and checks that they are a tree which names
// every solid.
fn check_tree(file: &File<'_>, table: &mut [Node]) -> Result<(), Refusal>
    requires { file.now.counts.nodes ≤ length table.old }
    ensures { MatchResult result (λ _. TreeFine file.now.size file.now.bytes.now (take file.now.counts.nodes table.new)) (λ e. (NodesCheck file.now.size file.now.bytes.now ▸ OrderCheck file.now.size file.now.bytes.now ▸ UnusedCheck file.now.size file.now.bytes.now) e) }
{
    let counts = file.counts;
    let nodes = &mut table[..counts.nodes];
    if let Err(i) = read_nodes(file.nodes(), counts.solids, counts.joints, nodes) {
        return Err(Refusal::Node(i as u16));
    }
    if let Some(i) = find_order_fault(nodes) {
        return Err(Refusal::Order(i as u16));
    }
    if let Some(i) = find_unused(nodes, counts.solids) {
        return Err(Refusal::Unused(i as u16));
    }
    Ok(())
}

// Each solid and each joint of a file is one of its kind.
fn check_rows<M: Make>(file: &File<'_>) -> Result<(), Refusal>
    requires { file.now.size ≡ M.Solid.LENGTH }
    ensures { MatchResult result (λ _. RowsFine (format M.NUMBER M.Solid.Record M.Joint.Record) file.now.bytes.now) (λ e. (SolidsCheck (format M.NUMBER M.Solid.Record M.Joint.Record) file.now.bytes.now ▸ JointsCheck (format M.NUMBER M.Solid.Record M.Joint.Record) file.now.bytes.now) e) }
{
    let counts = file.counts;
    if let Some(i) = first_bad::<M::Solid>(file.solids(), counts.solids) {
        return Err(Refusal::Solid(i as u16));
    }
    if let Some(i) = first_bad::<M::Joint>(file.joints(), counts.joints) {
        return Err(Refusal::Joint(i as u16));
    }
    Ok(())
}

// All checks of a file, for tables with this many rows. The nodes are read into the front of a table
// of our own, so that no table of the caller's is touched before all is known to be right.
pub(crate) fn check<'a, M: Make>(
    bytes: &'a [u8],
    rooms: Rooms,
    table: &mut [Node],
) -> Result<File<'a>, Refusal>
    requires { 1023 ≤ length table.old }
    ensures { MatchResult result (λ f. (f.bytes.now ≡ bytes.now) × (f.size ≡ M.Solid.LENGTH) × Checked (format M.NUMBER M.Solid.Record M.Joint.Record) bytes.now rooms f.counts (take f.counts.nodes table.new)) (λ e. Refused (format M.NUMBER M.Solid.Record M.Joint.Record) bytes.now rooms e) }
{
    let file = File::open(bytes, M::NUMBER, M::Solid::LENGTH, rooms)?;
    check_rows::<M>(&file)?;
    check_tree(&file, table)?;
    Ok(file)
}
