// The bytes of a scene file. Each function does nothing; its contract is a theorem for every make of
// file: reading and writing undo each other.
#![tactic(auto)]

ghost use Rattle.roundtrip.specs.RoundTrip.{ReadThenWritten, WrittenThenRead};

use records::make::Make;

// An accepted file, read and written again, has its old bytes.
pub fn read_then_written<M: Make>()
    ensures { ReadThenWritten M.Solid.Record M.Joint.Record }
{}

// A scene that a file can hold, written and read again, is accepted and is the same scene.
pub fn written_then_read<M: Make>()
    ensures { WrittenThenRead M.Solid.Record M.Joint.Record }
{}
