// Cutting a list down for the points near a centre, entry by entry for every kind of solid and joint.
ghost use Rattle.std.specs.Prelude.{◌≡◌, ◌+◌, ◌^◌, ◌<◌, ◌≤◌, true, [], length, unsigned_abs};
ghost use Rattle.scene.specs.Laid.{Stacked, Steps, GrownByOne};
ghost use Rattle.scene.specs.Meant.{listed};
ghost use Rattle.scene.specs.Lists.{named, Ready, counted};
ghost use Rattle.scene.specs.Pruned.{CutDown, PruneOutcome, SaysTheSame, RestKept, Again};
ghost use Rattle.space.specs.At.{at};
ghost use Rattle.std.specs.List.{AllByRecursion};
ghost use Rattle.tree.specs.Rows.{entry_symbol};
ghost use Rattle.tree.specs.declared.node.EntryKind.TheVariants.{Operator};

use crate::block::Block;
use crate::cut::Cut;
use crate::joining::handed_up;
use crate::keeping::{keeps_first, pick};
use crate::listing::Listing;
use crate::neighbourhood::Neighbourhood;
use crate::pruned::Pruned;
use joints::joint::Joint;
use solids::solid::Solid;
use space::refusal::Refusal;
use tree::node::{Blend, Entry, EntryKind};

impl<'a, S: Solid, J: Joint> Listing<'a, S, J> {
    // Writes the list of the pruned tree over the front of a free part, and answers its length and its value at
    // the centre; a free part that is shorter than the list is refused with 18 and left alone. At every point of
    // the neighbourhood the pruned list says what the list says. Of the rest of the free part only what `rest`
    // says is certain. The pruned list can be cut down in its turn.
    pub fn prune(&self, around: Neighbourhood, free: &mut [Entry]) -> Result<Pruned, Refusal>
        ensures outcome { PruneOutcome (listed S.Solid J.Joint self.now) (at around.centre) around.radius self.now.list.now free.old free.new result }
        ensures same { SaysTheSame (listed S.Solid J.Joint self.now) (at around.centre) around.radius self.now.list.now free.new result }
        ensures rest { RestKept self.now.list.now free.old free.new }
        ensures again { Again (length self.now.solids.now) (length self.now.joints.now) free.new result }
    {
        if free.len() < self.list.len() {
            return Err(Refusal::Full);
        }
        let mut cut = Cut::new(free);
        Ok(self.cut_down(around, &mut cut))
    }

    // The list cut down into a free part that is at least as long.
    fn cut_down(&self, around: Neighbourhood, cut: &mut Cut<'_>) -> Pruned
        requires none { cut.old.written ≡ 0 }
        requires empty { cut.old.waiting ≡ [] }
        requires room { length self.now.list.now ≤ length cut.old.free.now }
        ensures cut { CutDown (listed S.Solid J.Joint self.now) (at around.centre) around.radius self.now.list.now cut.new.free.now result }
        ensures same_part { cut.new.free.ghost_name ≡ cut.old.free.ghost_name }
        ensures rest { RestKept self.now.list.now cut.old.free.now cut.new.free.now }
    {
        for entry in self.list {
            self.cut_entry(*entry, around, cut);
        }
        Pruned {
            length: cut.written,
            value: cut.waiting.pop().value,
        }
    }

    // One entry: a solid waits as a block of its own, an operator takes the last two blocks.
    fn cut_entry(&self, entry: Entry, around: Neighbourhood, cut: &mut Cut<'_>)
        requires inside { named (length self.now.solids.now) (length self.now.joints.now) (entry_symbol entry) ≡ true }
        requires ready { Ready (entry_symbol entry) (length cut.old.waiting) }
        requires stacked { Stacked cut.old.waiting cut.old.written }
        requires small { AllByRecursion (λ b. unsigned_abs b.value ≤ 2 ^ 30) cut.old.waiting }
        requires room { cut.old.written < length cut.old.free.now }
        ensures laid { Steps (listed S.Solid J.Joint self.now) (at around.centre) around.radius (entry_symbol entry) cut.old cut.new }
        ensures count { length cut.new.waiting ≡ counted (entry_symbol entry) (length cut.old.waiting) }
        ensures grown { GrownByOne cut.old cut.new }
    {
        match entry.kind {
            EntryKind::Solid => {
                let distance = self.distance_of(entry.number, around.centre);
                let value = handed_up(entry.turned, distance);
                let start = cut.written;
                cut.append(entry, Block { value, start });
            }
            EntryKind::Operator(blend) => self.cut_operator(entry, blend, around, cut),
        }
    }

    // An operator over the two blocks that wait last: it drops out, and one block is kept, or its entry is written
    // behind both.
    fn cut_operator(&self, entry: Entry, blend: Blend, around: Neighbourhood, cut: &mut Cut<'_>)
        requires kind { entry.kind ≡ Operator blend }
        requires inside { entry.number < length self.now.joints.now }
        requires two { 2 ≤ length cut.old.waiting }
        requires stacked { Stacked cut.old.waiting cut.old.written }
        requires small { AllByRecursion (λ b. unsigned_abs b.value ≤ 2 ^ 30) cut.old.waiting }
        requires room { cut.old.written < length cut.old.free.now }
        ensures laid { Steps (listed S.Solid J.Joint self.now) (at around.centre) around.radius (entry_symbol entry) cut.old cut.new }
        ensures count { length cut.new.waiting + 1 ≡ length cut.old.waiting }
        ensures grown { GrownByOne cut.old cut.new }
    {
        let b = cut.waiting.pop();
        let a = cut.waiting.pop();
        let start = a.start;
        if self.drops_out(entry.number, around.radius, a.value, b.value) {
            let first = keeps_first(blend, a.value, b.value);
            cut.keep(start, b.start, first);
            cut.combine(entry.turned);
            let value = handed_up(entry.turned, pick(first, a.value, b.value));
            cut.waiting.push(Block { value, start });
        } else {
            let raw = self.joined_of(entry.number, blend, a.value, b.value);
            let value = handed_up(entry.turned, raw);
            cut.append(entry, Block { value, start });
        }
    }
}
