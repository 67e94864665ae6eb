// Loading a scene file into tables that the caller lends.
ghost use Rattle.std.specs.Prelude.{◌≡◌, ℕ, IfErr};
ghost use Rattle.records.specs.Format.{format};
ghost use Rattle.scenefile.specs.Load.{held, rooms_of, Outcome, SameTables, UnusedSolid};
ghost use Rattle.space.specs.declared.refusal.Refusal.TheVariants.{Unused};

use crate::check::check;
use crate::counts::{Counts, Rooms};
use crate::nodes::copy_nodes;
use crate::rows::fill;
use crate::tables::Tables;
use crate::whole::write_whole;
use records::make::Make;
use space::refusal::Refusal;
use tree::node::Node;

impl<'a, S, J> Tables<'a, S, J> {
    // How many rows each table has.
    fn rooms(&self) -> Rooms
        ensures { result ≡ rooms_of (held self.now) }
    {
        Rooms {
            solids: self.solids.len(),
            joints: self.joints.len(),
            nodes: self.nodes.len(),
            list: self.list.len(),
        }
    }
}

// Loads a scene file of a make, or refuses it and leaves every table as it was.
pub fn load<M: Make>(
    bytes: &[u8],
    tables: &mut Tables<'_, M::Solid, M::Joint>,
) -> Result<Counts, Refusal>
    ensures outcome { Outcome (format M.NUMBER M.Solid.Record M.Joint.Record) bytes.now (held tables.old) (held tables.new) result }
    ensures same { SameTables tables.old tables.new }
    ensures unused { IfErr result (λ e. (n : ℕ) → e ≡ Unused n → UnusedSolid M.Solid.LENGTH bytes.now n) }
{
    // an array of the greatest size: the library has no heap
    let mut own = [Node::default(); 1023];
    let file = check::<M>(bytes, tables.rooms(), &mut own)?;
    let counts = file.counts;
    let rows = &own[..counts.nodes];
    fill(file.solids(), counts.solids, tables.solids);
    fill(file.joints(), counts.joints, tables.joints);
    copy_nodes(rows, tables.nodes);
    write_whole(rows, tables.list);
    Ok(counts)
}
