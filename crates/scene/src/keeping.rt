// Which operand is kept where an operator drops out.
ghost use Rattle.std.specs.Prelude.{◌≡◌, if◌then◌else◌};
ghost use Rattle.scene.specs.Keeping.{keeps_first};
ghost use Rattle.tree.specs.Rows.{blend_op};

use tree::node::Blend;

// A union keeps the lesser operand, a common the greater; whether that is the first.
pub(crate) fn keeps_first(blend: Blend, a: i32, b: i32) -> bool
    ensures { result ≡ keeps_first (blend_op blend) a b }
{
    match blend {
        Blend::Union => a < b,
        Blend::Common => a >= b,
    }
}

// One of two values. A function of its own, so that what it answers is one fact where an operator drops out.
pub(crate) fn pick(first: bool, a: i32, b: i32) -> i32
    ensures { result ≡ (if first then a else b) }
{
    if first { a } else { b }
}
