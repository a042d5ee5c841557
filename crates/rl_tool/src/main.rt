//! The program `rl_tool`. It reads literals or attributes, and prints the kind, the value and the suffix of each literal.
#![tactic(auto)]

use rl_program::{arguments, finish, run_with_arguments};
use std::process::ExitCode;

fn main(rt: HostRuntime) -> ExitCode {
    let args = arguments(&rt).unwrap_or(Vec::new(rt.alloc()));
    let ending = run_with_arguments(
        rt.alloc(),
        args.as_slice(),
        &mut rt.stdin(),
        &mut rt.stdout(),
    );
    finish(&rt, ending)
}
