// Reading a scene from a file's bytes.
ghost use Rattle.std.specs.Prelude.{◌≡◌, ℕ, IfErr, MatchResult};
ghost use Rattle.records.specs.Format.{format};
ghost use Rattle.scenefile.specs.Checks.{Refused};
ghost use Rattle.scenefile.specs.Load.{held, rooms_of, SceneOf, UnusedSolid};
ghost use Rattle.space.specs.declared.refusal.Refusal.TheVariants.{Unused};

use crate::load::load;
use crate::tables::{Tables, Unread};
use records::make::Make;
use scene::scene::Scene;

// The checked scene of a file of a make, over the fronts of the tables; or why the file is refused,
// with the tables handed back as they were.
pub fn read<'a, M: Make>(
    bytes: &[u8],
    mut tables: Tables<'a, M::Solid, M::Joint>,
) -> Result<Scene<'a, M::Solid, M::Joint>, Unread<'a, M::Solid, M::Joint>>
    ensures scene { MatchResult result (λ s. SceneOf (format M.NUMBER M.Solid.Record M.Joint.Record) bytes.now (rooms_of (held tables.entry)) s.solids.now s.joints.now s.nodes.now) (λ u. Refused (format M.NUMBER M.Solid.Record M.Joint.Record) bytes.now (rooms_of (held tables.entry)) u.refusal) }
    ensures kept { IfErr result (λ u. held u.tables ≡ held tables.entry) }
    ensures unused { IfErr result (λ u. (n : ℕ) → u.refusal ≡ Unused n → UnusedSolid M.Solid.LENGTH bytes.now n) }
{
    match load::<M>(bytes, &mut tables) {
        Ok(counts) => {
            // made out of the tables, and not as the writer makes its own: this scene outlives their struct
            let Tables {
                solids,
                joints,
                nodes,
                list,
            } = tables;
            let s = counts.solids;
            let j = counts.joints;
            let n = counts.nodes;
            Ok(Scene {
                solids: &solids[0..s],
                joints: &joints[0..j],
                nodes: &nodes[0..n],
                list: &list[0..n],
            })
        }
        Err(refusal) => Err(Unread { refusal, tables }),
    }
}
