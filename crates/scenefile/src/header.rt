// The header of a scene file.
ghost use Rattle.std.specs.Prelude.{◌≡◌, ◌≤◌, ◌<◌, length, Some, None, MatchOption, MatchResult};
ghost use Rattle.scenefile.specs.Counted.{Counted};
ghost use Rattle.scenefile.specs.Header.{make_of, count, solids_offset, joints_offset, nodes_offset, count_faults, layout_faults, room_faults, first_fault, file_end};
ghost use Rattle.space.specs.declared.refusal.Table.TheVariants.{Solids, Joints, Nodes};

use crate::counts::{Counts, Rooms};
use space::refusal::{Refusal, Table};

// The header of a file that is long enough for one. Its counts are handed beside it and are no field: they are what the
// header comes to for a make, and it may come to a refusal.
#[derive(Clone, Copy)]
pub(crate) struct Header<'a> {
    bytes: &'a [u8],
    make: u16,
    solids: u16,
    joints: u16,
    nodes: u16,
    solids_at: u32,
    joints_at: u32,
    nodes_at: u32,
    ghost long: { 20 ≤ length bytes.now },
    ghost make_is: { make ≡ make_of bytes.now },
    ghost solids_are: { solids ≡ count Solids bytes.now },
    ghost joints_are: { joints ≡ count Joints bytes.now },
    ghost nodes_are: { nodes ≡ count Nodes bytes.now },
    ghost solids_begin: { solids_at ≡ solids_offset bytes.now },
    ghost joints_begin: { joints_at ≡ joints_offset bytes.now },
    ghost nodes_begin: { nodes_at ≡ nodes_offset bytes.now },
}

impl<'a> Header<'a> {
    pub(crate) fn read(bytes: &'a [u8]) -> Option<Header<'a>>
        ensures { MatchOption result (length bytes.now < 20) (λ h. h.bytes.now ≡ bytes.now) }
    {
        let [
            m0,
            m1,
            s0,
            s1,
            j0,
            j1,
            n0,
            n1,
            a0,
            a1,
            a2,
            a3,
            b0,
            b1,
            b2,
            b3,
            c0,
            c1,
            c2,
            c3,
            ..
        ] = bytes
        else {
            return None;
        };
        Some(Header {
            bytes,
            make: u16::from_le_bytes([*m0, *m1]),
            solids: u16::from_le_bytes([*s0, *s1]),
            joints: u16::from_le_bytes([*j0, *j1]),
            nodes: u16::from_le_bytes([*n0, *n1]),
            solids_at: u32::from_le_bytes([*a0, *a1, *a2, *a3]),
            joints_at: u32::from_le_bytes([*b0, *b1, *b2, *b3]),
            nodes_at: u32::from_le_bytes([*c0, *c1, *c2, *c3]),
        })
    }

    // The counts, where the file is of this make and they are within the limits.
    pub(crate) fn counts(&self, make: u16) -> Result<Counts, Refusal>
        ensures { MatchResult result (λ c. (first_fault (count_faults make self.now.bytes.now) ≡ None) × Counted self.now.bytes.now c) (λ e. first_fault (count_faults make self.now.bytes.now) ≡ Some e) }
    {
        if self.make != make {
            return Err(Refusal::Make);
        }
        let solids = usize::from(self.solids);
        let joints = usize::from(self.joints);
        let nodes = usize::from(self.nodes);
        if solids < 1 || 512 < solids {
            return Err(Refusal::Count(Table::Solids));
        }
        if 511 < joints {
            return Err(Refusal::Count(Table::Joints));
        }
        if nodes < 1 || 1023 < nodes {
            return Err(Refusal::Count(Table::Nodes));
        }
        Ok(Counts {
            solids,
            joints,
            nodes,
        })
    }

    // The tables begin where they have to, and the file ends with the last.
    pub(crate) fn check_layout(&self, size: usize, counts: Counts) -> Result<(), Refusal>
        requires short { size ≤ 1024 }
        requires counted { Counted self.now.bytes.now counts }
        ensures { MatchResult result (λ _. (first_fault (layout_faults size self.now.bytes.now) ≡ None) × (length self.now.bytes.now ≡ file_end size self.now.bytes.now)) (λ e. first_fault (layout_faults size self.now.bytes.now) ≡ Some e) }
    {
        if self.solids_at != 20 {
            return Err(Refusal::Offset(Table::Solids));
        }
        let joints_start = 20 + size * counts.solids;
        if self.joints_at as usize != joints_start {
            return Err(Refusal::Offset(Table::Joints));
        }
        let nodes_start = joints_start + 4 * counts.joints;
        if self.nodes_at as usize != nodes_start {
            return Err(Refusal::Offset(Table::Nodes));
        }
        if self.bytes.len() != nodes_start + 4 * counts.nodes {
            return Err(Refusal::Length);
        }
        Ok(())
    }

    // Each of the caller's tables has room for its rows.
    pub(crate) fn check_rooms(&self, rooms: Rooms, counts: Counts) -> Result<(), Refusal>
        requires { Counted self.now.bytes.now counts }
        ensures { MatchResult result (λ _. (first_fault (room_faults self.now.bytes.now rooms) ≡ None) × (counts.solids ≤ rooms.solids) × (counts.joints ≤ rooms.joints) × (counts.nodes ≤ rooms.nodes) × (counts.nodes ≤ rooms.list)) (λ e. first_fault (room_faults self.now.bytes.now rooms) ≡ Some e) }
    {
        if rooms.solids < counts.solids {
            return Err(Refusal::Room(Table::Solids));
        }
        if rooms.joints < counts.joints {
            return Err(Refusal::Room(Table::Joints));
        }
        if rooms.nodes < counts.nodes {
            return Err(Refusal::Room(Table::Nodes));
        }
        if rooms.list < counts.nodes {
            return Err(Refusal::Room(Table::List));
        }
        Ok(())
    }
}
