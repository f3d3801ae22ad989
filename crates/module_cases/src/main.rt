//! Runs cases of module files: what is read of them, the modules that they describe, and the modules that are made of those.
#![tactic(auto)]

mod files;
mod module_cases;
mod modules;

use crate::module_cases::ModuleCases;
use cases::report_files;
use std::process::ExitCode;

fn main(rt: HostRuntime) -> ExitCode {
    ExitCode::from(report_files(&rt, &mut ModuleCases))
}
