// Paths through scenes, and what an independent model finds at their ends: a near cell's list, entry by entry, or
// a far cell's constant.
use crate::case::Ask;
use anyhow::anyhow;
use cells::cell::Cell;
use descent::child::Child;
use descent::descend::descend;
use joints::joint::Joint;
use scene::listing::Listing;
use scene::scene::Scene;
use solids::solid::Solid;
use std::alloc::{AllocError, Global};
use tree::node::{Blend, Entry, EntryKind};

// room for the lists of seven levels, each as long as the longest whole list
const STORE: usize = 7161;

// What paths lead to; how many of them lead to far cells, and the store for the lists on the way, made once.
#[derive(Drop)]
pub(crate) struct Paths {
    pub(crate) far: u32,
    store: Vec<Entry>,
}

impl Paths {
    pub(crate) fn new(heap: Global) -> Result<Paths, AllocError> {
        Ok(Paths {
            far: 0,
            store: vec![in heap; Entry::default(); STORE]?,
        })
    }
}

// Writes a list: each entry's kind, turn and number; of a list with more entries than what is wanted has words, one entry
// more than those.
fn write_list(list: &[Entry], wanted: &str, text: &mut String) -> Result<(), AllocError> {
    let words = wanted.split(' ').count();
    for entry in list.iter().take(words.saturating_add(1)) {
        if !text.is_empty() {
            text.push(' ')?;
        }
        let kind = match entry.kind {
            EntryKind::Solid => 1,
            EntryKind::Operator(Blend::Union) => 2,
            EntryKind::Operator(Blend::Common) => 3,
        };
        let turned = u8::from(entry.turned);
        let number = entry.number;
        write!(text, "{kind}:{turned}:{number}")?;
    }
    Ok(())
}

// The constant of the far cell that the rest of a path leads to from a near cell; none where the path ends near, and its
// list is written into an empty text, as far as what is wanted asks.
fn follow<S: Solid, J: Joint>(
    held: &Listing<S, J>,
    cell: Cell,
    factor: u8,
    path: &[u8],
    free: &mut [Entry],
    wanted: &str,
    text: &mut String,
) -> anyhow::Result<Option<i32>> {
    let [number, rest @ ..] = path else {
        write_list(held.list, wanted, text)?;
        return Ok(None);
    };
    let Some(child) = cell.child(*number) else {
        return Err(anyhow!("a path has no such child"));
    };
    let Ok(end) = descend(held, child, factor, free) else {
        return Err(anyhow!("the store is too short for a path"));
    };
    match end {
        Child::Far(constant) => Ok(Some(constant)),
        Child::Near(length) => {
            let (list, more) = free.split_at_mut(length);
            let next = Listing {
                solids: held.solids,
                joints: held.joints,
                list,
            };
            follow(&next, child, factor, rest, more, wanted, text)
        }
    }
}

impl Ask for Paths {
    // A path's line: the far factor, then the children's numbers from the whole cube down. The ninth number is read, and
    // is one too many; what follows it is not looked at.
    fn answer<S: Solid, J: Joint>(
        &mut self,
        heap: Global,
        scene: &Scene<'_, S, J>,
        line: &str,
        wanted: &str,
        text: &mut String,
    ) -> anyhow::Result<()> {
        let numbers: Vec<u8> = line
            .split(' ')
            .take(9)
            .map(|word| -> anyhow::Result<u8> { Ok(word.parse::<u8>()?) })
            .try_collect(heap)?;
        let [factor, path @ ..] = numbers.as_slice() else {
            return Err(anyhow!("a path has no far factor"));
        };
        if path.len() > 7 {
            return Err(anyhow!("a path is too long"));
        }
        let held = scene.whole();
        let free = self.store.as_mut_slice();
        if let Some(constant) = follow(&held, Cell::whole(), *factor, path, free, wanted, text)? {
            self.far = self.far.saturating_add(1);
            write!(text, "far {constant}")?;
        }
        Ok(())
    }
}
