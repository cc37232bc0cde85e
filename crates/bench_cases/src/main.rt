// Runs the bench program on each file that its arguments name, and writes each file's name above what the bench writes of it.
#![tactic(auto)]

use std::fs::File;
use std::{env, io};

fn case(rt: &HostRuntime, name: &str) -> io::Result<()> {
    println!(rt; "== {name}")?;
    let mut file = match File::open(rt, name) {
        Ok(file) => file,
        Err(error) => return bench_run::complain(rt, name, &error),
    };
    match bench_run::run(rt, &mut file, &mut rt.stdout()) {
        Ok(()) => Ok(()),
        Err(failure) => bench_run::tell(rt, &failure),
    }
}

fn main(rt: HostRuntime) -> io::Result<()> {
    for name in env::args(&rt)?.skip(1) {
        case(&rt, name.as_str())?;
    }
    Ok(())
}
