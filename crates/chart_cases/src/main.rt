//! Runs cases of products and brackets, and of the texts of tables and classes.
#![tactic(auto)]

mod chart_cases;
mod classes;
mod tables;
mod texts;

use crate::chart_cases::ChartCases;
use cases::report_files;
use std::process::ExitCode;

fn main(rt: HostRuntime) -> ExitCode {
    ExitCode::from(report_files(&rt, &mut ChartCases))
}
