//! `ext` once more, run in a folder whose save file is of another module: it ends with status 9, and nothing is printed.
#![tactic(auto)]

use ext_program::program;
use std::process::ExitCode;

fn main(rt: HostRuntime) -> ExitCode {
    program(&rt, &rt)
}
