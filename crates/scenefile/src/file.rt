// A scene file and the bytes of its tables.
ghost use Rattle.std.specs.Prelude.{◌≡◌, ◌*◌, ◌≤◌, length, Some, None, MatchResult};
ghost use Rattle.scenefile.specs.Counted.{Counted, Roomy};
ghost use Rattle.scenefile.specs.Header.{header_fault, file_end, solids_start, joints_start, nodes_start};
ghost use Rattle.scenefile.specs.Rows.{part};

use crate::counts::{Counts, Rooms};
use crate::header::Header;
use space::refusal::Refusal;

// A file whose header has no fault, with solid records of `size` bytes.
#[derive(Clone, Copy)]
pub(crate) struct File<'a> {
    pub(crate) bytes: &'a [u8],
    pub(crate) size: usize,
    pub(crate) counts: Counts,
    ghost short: { size ≤ 1024 },
    ghost counted: { Counted bytes.now counts },
    ghost ends: { length bytes.now ≡ file_end size bytes.now },
}

impl<'a> File<'a> {
    // The file, for a make, the length of its solid records, and tables with this many rows.
    pub(crate) fn open(
        bytes: &'a [u8],
        make: u16,
        size: usize,
        rooms: Rooms,
    ) -> Result<File<'a>, Refusal>
        requires { size ≤ 1024 }
        ensures { MatchResult result (λ f. (f.bytes.now ≡ bytes.now) × (f.size ≡ size) × (header_fault make size bytes.now rooms ≡ None) × Roomy size bytes.now rooms f.counts) (λ e. header_fault make size bytes.now rooms ≡ Some e) }
    {
        let header = Header::read(bytes).ok_or(Refusal::Short)?;
        let counts = header.counts(make)?;
        header.check_layout(size, counts)?;
        header.check_rooms(rooms, counts)?;
        Ok(File {
            bytes,
            size,
            counts,
        })
    }

    // The records of the solids.
    pub(crate) fn solids(&self) -> &'a [u8]
        ensures value { result.now ≡ part solids_start (self.now.size * self.now.counts.solids) self.now.bytes.now }
        ensures len { length result.now ≡ self.now.size * self.now.counts.solids }
    {
        &self.bytes[20..self.joints_start()]
    }

    // The records of the joints.
    pub(crate) fn joints(&self) -> &'a [u8]
        ensures value { result.now ≡ part (joints_start self.now.size self.now.bytes.now) (4 * self.now.counts.joints) self.now.bytes.now }
        ensures len { length result.now ≡ 4 * self.now.counts.joints }
    {
        &self.bytes[self.joints_start()..self.nodes_start()]
    }

    // The records of the nodes.
    pub(crate) fn nodes(&self) -> &'a [u8]
        ensures value { result.now ≡ part (nodes_start self.now.size self.now.bytes.now) (4 * self.now.counts.nodes) self.now.bytes.now }
        ensures len { length result.now ≡ 4 * self.now.counts.nodes }
    {
        &self.bytes[self.nodes_start()..]
    }

    fn joints_start(&self) -> usize
        ensures { result ≡ joints_start self.now.size self.now.bytes.now }
    {
        20 + self.size * self.counts.solids
    }

    fn nodes_start(&self) -> usize
        ensures { result ≡ nodes_start self.now.size self.now.bytes.now }
    {
        self.joints_start() + 4 * self.counts.joints
    }
}
