//! The static timing server: one run of documents and scripts, or one generated run, from its command line.
#![tactic(auto)]

use shell_session::{Status, serve};
use sta_outside::{FileShelf, NoGate, StdSink};
use sta_units::Memory;
use std::env;
use std::io::ErrorKind;
use std::process::ExitCode;

/// The status of a run that wants memory.
const WANTING: Status = 6;

/// The words after the program's name; none of them where one is not text.
fn arguments(rt: &HostRuntime) -> Result<Vec<String>, Memory> {
    let mut words = Vec::new(rt.alloc());
    match env::args(rt) {
        Err(error) if error.kind() == ErrorKind::OutOfMemory => return Err(Memory),
        Err(_) => {}
        Ok(all) => {
            for word in all.skip(1) {
                if words.push(word).is_err() {
                    return Err(Memory);
                }
            }
        }
    }
    Ok(words)
}

fn main(rt: HostRuntime) -> ExitCode {
    let status = match arguments(&rt) {
        Err(Memory) => WANTING,
        Ok(words) => {
            let mut shelf = FileShelf::new(&rt);
            let mut out = StdSink::new(&rt);
            serve(
                &rt,
                rt.alloc(),
                words.as_slice(),
                &mut shelf,
                &mut out,
                &NoGate,
            )
        }
    };
    ExitCode::from(status)
}
