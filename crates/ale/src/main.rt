//! `ale GRAMMAR COMMANDS`: runs the commands of a file over a grammar of typed feature structures.
#![tactic(auto)]

use ale_base::{RealFiles, RealSink};
use ale_top::exit_number;
use std::process::ExitCode;
use std::{env, io};

/// The arguments of the process, the program's name first.
fn arguments(rt: &HostRuntime) -> io::Result<Vec<String>> {
    Ok(env::args(rt)?.collect(rt.alloc())?)
}

fn main(rt: HostRuntime) -> ExitCode {
    let mut files = RealFiles::new(&rt);
    let mut out = RealSink::new(&rt);
    ExitCode::from(exit_number(rt.alloc(), arguments(&rt), &mut files, &mut out))
}
