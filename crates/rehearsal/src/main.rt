#![tactic(auto)]

ghost use Rattle.std.specs.Prelude.{◌≤◌, length, IfOk};

use planfile::contents_of;
use std::io::{ErrorKind, Read};
use std::rt::Files;
use std::{fs, io};

// One byte more than a plan file may have: a longer file is refused without being read to its end.
const FRONT: usize = 4097;

// Reads the front of a file into the caller's bytes, so that no want of memory keeps a plan from being read, and answers how many
// there are; none where there is no file.
fn load<R: Files>(rt: &R, path: &str, bytes: &mut [u8]) -> io::Result<usize>
    ensures { IfOk result (λ n. n ≤ length bytes.old) }
{
    let room = bytes.len();
    let mut rest = bytes;
    match fs::open(rt, path) {
        Ok(file) => {
            io::copy(&mut file.take(room as u64), &mut rest)?;
            Ok(room.saturating_sub(rest.len()))
        }
        Err(e) if e.kind() == ErrorKind::NotFound => Ok(0),
        Err(e) => Err(e),
    }
}

// Loads the plan of the folder that the program runs in.
fn rehearse(rt: &HostRuntime) -> anyhow::Result<()> {
    let mut bytes = [0u8; FRONT];
    let len = load(rt, "fabric.plan", &mut bytes)?;
    match contents_of(&bytes[..len]) {
        Ok(_) => rt.println(
            "fabric.plan is as long as its contents say; loading goes no further yet",
        )?,
        Err(fault) => {
            if let Some(number) = fault.number() {
                println!(rt; "refused {number}")?;
            }
        }
    }
    Ok(())
}

fn main(rt: HostRuntime) -> anyhow::Result<()> {
    rehearse(&rt)
}
