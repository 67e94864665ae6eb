// Floor roots.
ghost use Rattle.std.specs.Prelude.{◌≡◌, ◌^◌, ◌<◌};
ghost use Rattle.space.specs.Root.{root};

use std::num::saturating_f64_to_u32;

// The greatest number whose square is at most n. A guess by the float root, confirmed by two
// comparisons; `isqrt` stands behind it, so the answer does not rest on the float.
pub fn floor_root(n: u32) -> u32
    ensures { result ≡ root n }
{
    let guess = saturating_f64_to_u32(f64::from(n).sqrt());
    if guess < 65535 && guess * guess <= n && n < (guess + 1) * (guess + 1) {
        guess
    } else {
        n.isqrt()
    }
}
