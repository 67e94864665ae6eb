// The header of a scene file.
ghost use Rattle.std.specs.Prelude.{◌≡◌, ◌++◌};
ghost use Rattle.records.specs.LittleEndian.{u16_le, u32_le};

// The make, the counts of the tables, and where each begins; numbers, and no struct, since the reader's header is one
// with the bytes that it was read from.
pub(crate) fn header(
    make: u16,
    solids: u16,
    joints: u16,
    nodes: u16,
    joints_start: u32,
    nodes_start: u32,
) -> [u8; 20]
    ensures { result ≡ u16_le make ++ u16_le solids ++ u16_le joints ++ u16_le nodes ++ u32_le 20 ++ u32_le joints_start ++ u32_le nodes_start }
{
    let mut head = [0; 20];
    head[..8].copy_from_slice(
        [make, solids, joints, nodes]
            .map(u16::to_le_bytes)
            .as_flattened(),
    );
    head[8..].copy_from_slice(
        [20, joints_start, nodes_start]
            .map(u32::to_le_bytes)
            .as_flattened(),
    );
    head
}
