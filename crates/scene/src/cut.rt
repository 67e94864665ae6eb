// A list that is being cut down, and what is done to it entry by entry.
ghost use Rattle.std.specs.Prelude.{◌≡◌, ◌+◌, ◌-◌, ◌<◌, ◌≤◌, cond, [], ◌∷◌, ◌++◌, length, take, drop, slice_index_or, slice_range, slice_set};
ghost use Rattle.scene.specs.Keeping.{entry_turned_by};
ghost use Rattle.tree.specs.declared.node.Entry.{Entry};

use crate::block::Block;
use crate::waiting::Waiting;
use tree::node::Entry;

// The lists of the trees that wait lie one after another in the front of a free part. Each method promises by itself
// that the part is still the one that was lent: a struct cannot say of itself what it held before a call.
#[derive(Drop)]
pub(crate) struct Cut<'f> {
    pub(crate) free: &'f mut [Entry],
    // how much of the free part they take
    pub(crate) written: usize,
    pub(crate) waiting: Waiting<Block>,
    ghost within: { written ≤ length free.now },
}

impl<'f> Cut<'f> {
    // Nothing is written into the free part yet.
    pub(crate) fn new(free: &'f mut [Entry]) -> Cut<'f>
        ensures same_part { result.free.ghost_name ≡ free.entry.ghost_name }
        ensures free { result.free.now ≡ free.entry.now }
        ensures none { result.written ≡ 0 }
        ensures empty { result.waiting ≡ [] }
    {
        Cut {
            free,
            written: 0,
            waiting: Waiting::new(Block { value: 0, start: 0 }),
        }
    }

    // Writes an entry behind all that is written, as the end of a block that waits from now on.
    pub(crate) fn append(&mut self, entry: Entry, block: Block)
        requires room { self.old.written < length self.old.free.now }
        requires few { length self.old.waiting < 64 }
        ensures free { self.new.free.now ≡ slice_set self.old.free.now self.old.written entry }
        ensures written { self.new.written ≡ self.old.written + 1 }
        ensures same_part { self.new.free.ghost_name ≡ self.old.free.ghost_name }
        ensures waiting { self.new.waiting ≡ block ∷ self.old.waiting }
    {
        self.free[self.written] = entry;
        self.written += 1;
        self.waiting.push(block);
    }

    // Of two blocks, from `first` to `second` and from there to the end of what is written, one stays and lies where
    // the first began.
    pub(crate) fn keep(&mut self, first: usize, second: usize, keep_first: bool)
        requires rising { first ≤ second }
        requires ends { second ≤ self.old.written }
        ensures written { self.new.written ≡ first + cond keep_first (second - first) (self.old.written - second) }
        ensures front { take self.new.written self.new.free.now ≡ take first self.old.free.now ++ cond keep_first (slice_range self.old.free.now first second) (slice_range self.old.free.now second self.old.written) }
        ensures len { length self.new.free.now ≡ length self.old.free.now }
        ensures beyond { drop self.old.written self.new.free.now ≡ drop self.old.written self.old.free.now }
        ensures same_part { self.new.free.ghost_name ≡ self.old.free.ghost_name }
        ensures waiting { self.new.waiting ≡ self.old.waiting }
    {
        if keep_first {
            self.written = second;
        } else {
            self.free.copy_within(second..self.written, first);
            self.written = first + (self.written - second);
        }
    }

    // The turn of the entry that ends what is written is combined with the turn of the operator that drops out.
    pub(crate) fn combine(&mut self, turned: bool)
        requires { 0 < self.old.written }
        ensures front { (e : Entry) → take self.old.written self.new.free.now ≡ take (self.old.written - 1) self.old.free.now ++ entry_turned_by turned (slice_index_or self.old.free.now (self.old.written - 1) e) ∷ [] }
        ensures len { length self.new.free.now ≡ length self.old.free.now }
        ensures beyond { drop self.old.written self.new.free.now ≡ drop self.old.written self.old.free.now }
        ensures written { self.new.written ≡ self.old.written }
        ensures same_part { self.new.free.ghost_name ≡ self.old.free.ghost_name }
        ensures waiting { self.new.waiting ≡ self.old.waiting }
    {
        let end = self.written - 1;
        let free = &mut *self.free;
        let last = &mut free[end];
        last.turned = last.turned != turned;
    }
}
