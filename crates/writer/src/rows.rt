// The records of rows, one after another.
ghost use Rattle.std.specs.Prelude.{◌≡◌, ◌+◌, ◌*◌, ◌≤◌, ◌++◌, map, length, take, drop};
ghost use Rattle.roundtrip.specs.Bytes.{concat};

use records::record::Record;

// Lays the records of rows over an output from a place on.
pub(crate) fn write_rows<R: Record>(rows: &[R], out: &mut [u8], start: usize)
    requires { start + R.LENGTH * length rows.now ≤ length out.old }
    ensures { out.new ≡ take start out.old ++ (concat (map R.written rows.now) ++ drop (start + R.LENGTH * length rows.now) out.old) }
{
    // A `for` over `chunks_exact_mut` would leave what it wrote unknown, and records may have no bytes.
    for (i, row) in rows.iter().enumerate() {
        row.write(&mut out[start + R::LENGTH * i..]);
    }
}
