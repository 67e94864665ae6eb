// A scene's whole list, as a list that can be worked out and cut down.
ghost use Rattle.std.specs.Prelude.{◌≡◌};

use crate::listing::Listing;
use crate::scene::Scene;
use tree::node::Entry;

impl<'a, S, J> Scene<'a, S, J> {
    // The scene's tables with its whole list.
    pub fn whole(&self) -> Listing<'_, S, J>
        ensures solids { result.solids.now ≡ self.now.solids.now }
        ensures joints { result.joints.now ≡ self.now.joints.now }
        ensures list { result.list.now ≡ self.now.list.now }
    {
        Listing {
            solids: self.solids,
            joints: self.joints,
            list: self.list,
        }
    }
}
