// Bytes put over the front of an output.
ghost use Rattle.std.specs.Prelude.{◌≡◌};
ghost use Rattle.records.specs.Put.{put};

pub(crate) fn put_bytes(bytes: &[u8], out: &mut [u8])
    ensures { out.new ≡ put bytes.now out.old }
{
    let n = bytes.len();
    if n <= out.len() {
        out[0..n].copy_from_slice(bytes);
    }
}
