// Which make a file says it is of.
ghost use Rattle.std.specs.Prelude.{◌≡◌, ◌<◌, length, MatchOption};
ghost use Rattle.scenefile.specs.Header.{make_of};

// The make in a file's header; none where the file is shorter than that. A number, and no enum of makes: it is what
// this call has always promised, and what a caller compares with `Make::NUMBER`.
pub fn make_number(bytes: &[u8]) -> Option<u16>
    ensures { MatchOption result (length bytes.now < 2) (λ m. m ≡ make_of bytes.now) }
{
    match bytes {
        [low, high, ..] => Some(u16::from_le_bytes([*low, *high])),
        _ => None,
    }
}
