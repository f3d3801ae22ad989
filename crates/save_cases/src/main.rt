//! Runs cases of save files, which are opened or taken up on disks in memory.
#![tactic(auto)]

mod outcomes;
mod save_cases;

use crate::save_cases::SaveCases;
use cases::report_files;
use std::process::ExitCode;

fn main(rt: HostRuntime) -> ExitCode {
    ExitCode::from(report_files(&rt, &mut SaveCases))
}
