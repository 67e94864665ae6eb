// Reads scene.bin, then lines from standard input, and prints an answer for each.
#![tactic(auto)]

use anyhow::anyhow;
use clearance::answer::{Answer, Fault};
use clearance::script::answer;
use joints::joint::Joint;
use records::make::{CatalogueMake, Make, ProbedMake};
use room::room::Room;
use scene::scene::Scene;
use scenefile::make_number::make_number;
use scenefile::read::read;
use solids::solid::Solid;
use std::fs;
use std::io::{BufRead, BufReader};

// The answer to the bytes of a line; bytes that are no UTF-8 are no call.
fn reply<S: Solid, J: Joint>(scene: &Scene<S, J>, line: &[u8]) -> Result<Answer, Fault> {
    let text = std::str::from_utf8(line).map_err(|_| Fault::Bad)?;
    answer(scene, text)
}

// Answers each line of standard input. A line ends with a line feed, and nothing else is cut off it.
fn serve<S: Solid, J: Joint>(rt: &HostRuntime, scene: &Scene<S, J>) -> anyhow::Result<()> {
    for line in BufReader::new(rt.alloc(), rt.stdin())?.split(rt.alloc(), b'\n') {
        match reply(scene, line?.as_slice()) {
            Ok(answer) => println!(rt; "{answer}")?,
            Err(fault) => println!(rt; "{fault}")?,
        }
    }
    Ok(())
}

// Reads a scene of a make and serves it, or prints why it is refused.
fn run<M: Make>(
    rt: &HostRuntime,
    bytes: &[u8],
    room: &mut Room<M::Solid, M::Joint>,
) -> anyhow::Result<()> {
    match read::<M>(bytes, room.tables()) {
        Ok(scene) => serve(rt, &scene),
        Err(unread) => {
            let fault = Fault::from(unread.refusal);
            println!(rt; "{fault}")?;
            Ok(())
        }
    }
}

fn open(rt: &HostRuntime) -> anyhow::Result<()> {
    let Ok(bytes) = fs::read(rt, "scene.bin") else {
        return Err(anyhow!("scene.bin cannot be read"));
    };
    let bytes = bytes.as_slice();
    // two arms, here and in the other programs: a trait with a generic method would take more lines than it saves
    match make_number(bytes) {
        Some(ProbedMake::NUMBER) => run::<ProbedMake>(
            rt,
            bytes,
            &mut Room::of_defaults(rt.alloc())?,
        ),
        _ => run::<CatalogueMake>(rt, bytes, &mut Room::of_defaults(rt.alloc())?),
    }
}

fn main(rt: HostRuntime) -> anyhow::Result<()> {
    open(&rt)
}
