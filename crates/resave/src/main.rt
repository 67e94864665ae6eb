// Reads each scene file that it is given by name and writes it back beside it, as NAME.copy.
#![tactic(auto)]

use clearance::answer::Fault;
use records::make::{CatalogueMake, Make, ProbedMake};
use room::room::Room;
use scenefile::make_number::make_number;
use std::{env, fs};
use writer::rewrite::rewrite;

fn resave(rt: &HostRuntime, name: &str) -> anyhow::Result<()> {
    let heap = rt.alloc();
    let bytes = fs::read(rt, name)?;
    let bytes = bytes.as_slice();
    let mut out = bytes.to_vec(heap)?;
    out.fill(0);
    // two arms, here and in the other programs: a trait with a generic method would take more lines than it saves
    let done = match make_number(bytes) {
        Some(ProbedMake::NUMBER) => {
            rewrite::<ProbedMake>(
                bytes,
                &mut Room::of_defaults(heap)?.tables(),
                out.as_mut_slice(),
            )
        }
        _ => rewrite::<CatalogueMake>(
            bytes,
            &mut Room::of_defaults(heap)?.tables(),
            out.as_mut_slice(),
        ),
    };
    match done {
        Ok(n) => {
            let copy = format!(in heap; "{name}.copy")?;
            fs::write(rt, copy.as_str(), out.as_slice())?;
            let again = fs::read(rt, copy.as_str())?;
            let same = again.as_slice() == bytes;
            println!(rt; "{name}: {n} bytes written, the same: {same}")?;
        }
        Err(e) => {
            let reply = Fault::from(e);
            println!(rt; "{name}: {reply}")?;
        }
    }
    Ok(())
}

fn run(rt: &HostRuntime) -> anyhow::Result<()> {
    for name in env::args(rt)?.skip(1) {
        resave(rt, name.as_str())?;
    }
    Ok(())
}

fn main(rt: HostRuntime) -> anyhow::Result<()> {
    run(&rt)
}
