// A fault as an error, and a refusal as a fault.
ghost use Rattle.std.specs.Prelude.{◌≡◌};
ghost use Rattle.clearance.specs.declared.answer.Fault.TheVariants.{No};

use crate::answer::Fault;
use space::refusal::Refusal;
use std::error::Error;

impl Error for Fault {}

impl From<Refusal> for Fault {
    ghost from_gives = { λ refusal fault. fault ≡ No refusal };

    fn from(refusal: Refusal) -> Fault {
        Fault::No(refusal)
    }
}
