// Replays cases whose answers come from an independent model, and prints what differs: scenes with
// lines to answer, damaged files with the refusal that each must get, paths with what they lead to, and
// motions with how their marches end.
#![tactic(auto)]

use crate::case::{Ask, Case};
use crate::lines::Lines;
use crate::marches::Marches;
use crate::path_cases::Paths;
use crate::replay::Replay;
use anyhow::anyhow;
use std::fs;

mod case;
mod lines;
mod marches;
mod path_cases;
mod replay;

// how many scenes of each kind there are
const SCENES: u32 = 48;

const PATHS: u32 = 22;

const MARCHES: u32 = 13;

// Replays this many scenes of a kind, whose files are named for it. A loop over numbers, since each is part of the names
// of a scene's files and indexes nothing.
fn scenes<'r, A: Ask>(
    rt: &'r HostRuntime,
    kind: &str,
    ask: A,
    count: u32,
) -> anyhow::Result<Replay<'r, A>> {
    let heap = rt.alloc();
    let mut replay = Replay::new(rt, ask);
    for k in 0..count {
        let name = format!(in heap; "{kind}-{k:02}")?;
        let bytes = fs::read(rt, format!(in heap; "{name}.bin")?)?;
        let script = fs::read_to_string(rt, format!(in heap; "{name}.in")?)?;
        let wanted = fs::read_to_string(rt, format!(in heap; "{name}.out")?)?;
        replay.case(Case {
            name: name.as_str(),
            bytes: bytes.as_slice(),
            script: script.as_str(),
            wanted: wanted.as_str(),
        })?;
    }
    Ok(replay)
}

// The files stand one after another, each behind its length as four bytes, the low one first.
fn damaged(rt: &HostRuntime) -> anyhow::Result<Replay<'_, Lines>> {
    let mut replay = Replay::new(rt, Lines { written: 0 });
    let all = fs::read(rt, "damaged.bin")?;
    let wanted = fs::read_to_string(rt, "damaged.out")?;
    let mut left = all.as_slice();
    for refusal in wanted.as_str().split('\n') {
        let [a, b, c, d, rest @ ..] = left else {
            break;
        };
        let size = u32::from_le_bytes([*a, *b, *c, *d]) as usize;
        if rest.len() < size {
            return Err(anyhow!("damaged.bin is cut short"));
        }
        let (bytes, more) = rest.split_at(size);
        left = more;
        replay.case(Case {
            name: "damaged file",
            bytes,
            script: "",
            wanted: refusal,
        })?;
    }
    Ok(replay)
}

fn run(rt: &HostRuntime) -> anyhow::Result<()> {
    let Replay {
        ask: Lines { written },
        all,
        differ,
        ..
    } = scenes(rt, "scene", Lines { written: 0 }, SCENES)?;
    println!(rt; "scenes: {all} lines answered, {written} files written back, {differ} differ")?;
    let Replay {
        ask: Lines { written },
        all,
        differ,
        ..
    } = damaged(rt)?;
    println!(rt; "damaged files: {all} refused, {written} accepted, {differ} differ")?;
    let Replay {
        ask: Paths { far, .. },
        all,
        differ,
        ..
    } = scenes(rt, "path", Paths::new(rt.alloc())?, PATHS)?;
    println!(rt; "paths: {all} followed, {far} of them to far cells, {differ} differ")?;
    let Replay {
        ask: Marches { met },
        all,
        differ,
        ..
    } = scenes(rt, "march", Marches { met: 0 }, MARCHES)?;
    println!(rt; "marches: {all} made, {met} of them met, {differ} differ")?;
    Ok(())
}

fn main(rt: HostRuntime) -> anyhow::Result<()> {
    run(&rt)
}
