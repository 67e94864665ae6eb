// Writing a scene back as the file that it is.
ghost use Rattle.std.specs.Prelude.{◌≡◌, length};
ghost use Rattle.records.specs.Format.{format};
ghost use Rattle.records.specs.Put.{put};
ghost use Rattle.roundtrip.specs.Bytes.{file_bytes};
ghost use Rattle.roundtrip.specs.RoundTrip.{RoomFor, ReadsBack};
ghost use Rattle.scenefile.specs.declared.counts.Rooms.{Rooms};
ghost use Rattle.writer.specs.Write.{written_length};

use crate::header::header;
use crate::rows::write_rows;
use records::make::Make;
use records::record::Record;
use scene::scene::Scene;
use space::refusal::Refusal;

// Writes a scene's file over the front of an output and answers its length; an output that is shorter
// is refused with 19 and left alone. What is written, read again into tables with room, is accepted and
// is this scene and no other.
pub fn write<M: Make>(
    scene: &Scene<'_, M::Solid, M::Joint>,
    out: &mut [u8],
) -> Result<usize, Refusal>
    ensures answer { result ≡ written_length (file_bytes (format M.NUMBER M.Solid.Record M.Joint.Record) scene.now.solids.now scene.now.joints.now scene.now.nodes.now) out.old }
    ensures after { out.new ≡ put (file_bytes (format M.NUMBER M.Solid.Record M.Joint.Record) scene.now.solids.now scene.now.joints.now scene.now.nodes.now) out.old }
    ensures again { (rooms : Rooms) → RoomFor (length scene.now.solids.now) (length scene.now.joints.now) (length scene.now.nodes.now) rooms → ReadsBack (format M.NUMBER M.Solid.Record M.Joint.Record) (file_bytes (format M.NUMBER M.Solid.Record M.Joint.Record) scene.now.solids.now scene.now.joints.now scene.now.nodes.now) rooms scene.now.solids.now scene.now.joints.now scene.now.nodes.now }
{
    let size = M::Solid::LENGTH;
    let solids = scene.solids.len();
    let joints = scene.joints.len();
    let nodes = scene.nodes.len();
    let joints_start = 20 + size * solids;
    let nodes_start = joints_start + 4 * joints;
    let end = nodes_start + 4 * nodes;
    if out.len() < end {
        return Err(Refusal::Output);
    }
    let head = header(
        M::NUMBER,
        solids as u16,
        joints as u16,
        nodes as u16,
        joints_start as u32,
        nodes_start as u32,
    );
    out[0..20].copy_from_slice(&head);
    write_rows(scene.solids, out, 20);
    write_rows(scene.joints, out, joints_start);
    write_rows(scene.nodes, out, nodes_start);
    Ok(end)
}
