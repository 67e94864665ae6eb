// Reading a line of a script.
ghost use Rattle.std.specs.Prelude.{◌≡◌};
ghost use Rattle.clearance.specs.Lines.{number, coordinate, fields, distance_call, call_of};

use crate::call::Call;

// A field as a number: one to five digits.
fn read_number(field: &str) -> Option<u32>
    ensures { result ≡ number field.now }
{
    if field.len() > 5 {
        return None;
    }
    // `parse` takes a plus
    if field.starts_with('+') {
        return None;
    }
    field.parse::<u32>().ok()
}

// A field as a coordinate: a number, with or without a minus.
fn read_coordinate(field: &str) -> Option<i32>
    ensures { result ≡ coordinate field.now }
{
    match field.strip_prefix('-') {
        Some(digits) => Some(-(read_number(digits)? as i32)),
        None => Some(read_number(field)? as i32),
    }
}

// Three fields as the coordinates of a point.
fn read_point(text: &str) -> Option<Call>
    ensures { result ≡ distance_call (fields text.now) }
{
    let (x, rest) = text.split_once(' ')?;
    let (y, z) = rest.split_once(' ')?;
    Some(Call::Distance(
        read_coordinate(x)?,
        read_coordinate(y)?,
        read_coordinate(z)?,
    ))
}

// The call that a line makes, if it makes one.
pub fn read_call(line: &str) -> Option<Call>
    ensures { result ≡ call_of line.now }
{
    // each call's name is one letter
    let (name, rest) = line.split_once(' ')?;
    match name.chars().next() {
        Some('s') if name.len() == 1 => read_point(rest),
        _ => None,
    }
}
