// The far mark.
ghost use Rattle.std.specs.Prelude.{◌≡◌};
ghost use Rattle.descent.specs.Descent.{far_mark};

// With d the value at a cell's centre: the constant of a far cell, or nothing where the cell is near. A cell is
// far where |d| is above C·R; its constant is |d| − R under d's sign.
pub fn far_constant(d: i32, radius: u16, factor: u8) -> Option<i32>
    ensures { result ≡ far_mark factor radius d }
{
    let reach = i32::from(radius);
    if d.unsigned_abs() <= u32::from(factor) * u32::from(radius) {
        None
    } else if d < 0 {
        Some((d + reach).min(0))
    } else {
        Some((d - reach).max(0))
    }
}
