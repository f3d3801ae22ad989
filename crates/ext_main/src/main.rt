//! `ext`: Ext over the mod 2 Steenrod algebra, as charts.
#![tactic(auto)]

use ext_program::program;
use std::process::ExitCode;

fn main(rt: HostRuntime) -> ExitCode {
    program(&rt, &rt)
}
