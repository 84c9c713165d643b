//! Decides whether a stylesheet can emit an invalid document. The words behind the program's name are the command; the
//! answer goes to the standard output, and its status is the program's.
#![tactic(auto)]

use std::process::ExitCode;
use std::{env, io};
use tc_io::{RealSink, RealStore};
use tc_top::run_program;

fn main(rt: HostRuntime) -> ExitCode {
    let mut store = RealStore::new(&rt);
    let mut sink = RealSink::new(io::writer(&rt));
    run_program(rt.alloc(), env::args(&rt), &mut store, &mut sink)
}
