// A file read and written back.
ghost use Rattle.std.specs.Prelude.{◌≡◌, ◌≤◌, length, take};
ghost use Rattle.records.specs.Format.{format};
ghost use Rattle.roundtrip.specs.RoundTrip.{Storable};
ghost use Rattle.scenefile.specs.Load.{held, rooms_of, SameTables};
ghost use Rattle.tree.specs.Rows.{whole_entries};
ghost use Rattle.writer.specs.Rewrite.{Rewritten, RewrittenByTables};

use crate::write::write;
use records::make::Make;
use scene::scene::Scene;
use scenefile::counts::Counts;
use scenefile::load::load;
use scenefile::tables::Tables;
use space::refusal::Refusal;

// The scene in the fronts of tables. The reader makes its own out of the tables, since it has to outlive their struct.
fn scene_of<'t, S, J>(tables: &'t Tables<'_, S, J>, counts: Counts) -> Scene<'t, S, J>
    requires solids_in { counts.solids ≤ length tables.now.solids.now }
    requires joints_in { counts.joints ≤ length tables.now.joints.now }
    requires nodes_in { counts.nodes ≤ length tables.now.nodes.now }
    requires list_in { counts.nodes ≤ length tables.now.list.now }
    requires fine { Storable (take counts.solids tables.now.solids.now) (take counts.joints tables.now.joints.now) (take counts.nodes tables.now.nodes.now) }
    requires whole { take counts.nodes tables.now.list.now ≡ whole_entries (take counts.nodes tables.now.nodes.now) }
    ensures solids { result.solids.now ≡ take counts.solids tables.now.solids.now }
    ensures joints { result.joints.now ≡ take counts.joints tables.now.joints.now }
    ensures nodes { result.nodes.now ≡ take counts.nodes tables.now.nodes.now }
{
    let solids = &*tables.solids;
    let joints = &*tables.joints;
    let nodes = &*tables.nodes;
    let list = &*tables.list;
    let n = counts.nodes;
    Scene {
        solids: &solids[..counts.solids],
        joints: &joints[..counts.joints],
        nodes: &nodes[..n],
        list: &list[..n],
    }
}

// Loads a scene file into the tables and writes it over the front of an output: an accepted file has its
// old bytes there. A refused file leaves tables and output alone.
pub fn rewrite<M: Make>(
    bytes: &[u8],
    tables: &mut Tables<'_, M::Solid, M::Joint>,
    out: &mut [u8],
) -> Result<usize, Refusal>
    ensures output { Rewritten (format M.NUMBER M.Solid.Record M.Joint.Record) bytes.now (rooms_of (held tables.old)) out.old out.new result }
    ensures tables { RewrittenByTables (format M.NUMBER M.Solid.Record M.Joint.Record) bytes.now (held tables.old) (held tables.new) out.old out.new result }
    ensures same { SameTables tables.old tables.new }
{
    let counts = load::<M>(bytes, tables)?;
    let scene = scene_of(tables, counts);
    write::<M>(&scene, out)
}
