// What can stand as a row in a table of a scene file.
ghost use Rattle.std.specs.Prelude.{◌≡◌, ℕ, ◌≤◌, List, length};
ghost use Rattle.records.specs.Put.{put};
ghost use Rattle.records.specs.Reads.{Reads};

pub trait Record: Sized {
    // the length of a record, in bytes
    const LENGTH: usize;

    ghost LENGTH: { ℕ };

    // how a value stands in a file
    ghost written: { Self → List ℕ };

    // the value that these bytes are the record of, where there is one
    fn read(bytes: &[u8]) -> Option<Self>
        ensures { Reads written bytes.now result };

    // Puts the record over the front of an output that has room for it, and leaves another alone. Each kind does it by an
    // array of its own length: one body for all would need an array of `Self::LENGTH` bytes, a computed const argument.
    fn write(&self, out: &mut [u8])
        ensures { out.new ≡ put (written self.now) out.old };

    ghost sized: { (x : Self) → length (written x) ≡ LENGTH };

    // two values with one record are one value
    ghost apart: { (x y : Self) → written x ≡ written y → x ≡ y };

    // lengths of tables do not wrap
    ghost short: { LENGTH ≤ 64 };
}
