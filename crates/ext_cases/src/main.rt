//! Cases of command lines and of whole runs, which stand in `data/`: `words WORDS..` parses the words of a command line, and `ext WORDS..`
//! answers them.
#![tactic(auto)]

mod asked;
mod ran;

use crate::asked::asked_difference;
use crate::ran::ran_difference;
use cases::{
    Fault, REFUSED, SAME, file_names, file_text, print_report, read, tell_case, tell_group,
};
use std::alloc::Global;
use std::io;
use std::process::ExitCode;
use std::rt::{Env, Files};
use std::sync::Wait;
use std::thread::Threads;
use std::time::Clock;

fn main(rt: HostRuntime) -> ExitCode {
    ExitCode::from(status(&rt, &rt).unwrap_or(REFUSED))
}

/// Prints the report on each file that the program's arguments name, up to the first that is refused, and answers the program's status, as
/// `cases::report_files` does. A run starts threads and waits for them, which no `Judge` may.
fn status<R: Env + Files + AllocGlobal + Print, W: Threads + Wait + Clock + Sync>(
    rt: &R,
    wait: &W,
) -> io::Result<u8> {
    let mut left = Vec::new(rt.alloc());
    let mut status = SAME;
    for name in &file_names(rt)? {
        let Some(text) = file_text(rt, name.as_str())? else {
            return Ok(REFUSED);
        };
        let mut out = String::new(rt.alloc());
        let reported = report(wait, rt.alloc(), text.as_str(), &mut left, &mut out);
        status = status.max(print_report(rt, name.as_str(), out.as_str(), reported)?);
        if status == REFUSED {
            break;
        }
    }
    Ok(status)
}

/// Appends the report on a text of cases, and answers how many differ. `left` has the bytes of the disk that the last run left.
fn report<W: Threads + Wait + Clock + Sync>(
    wait: &W,
    alloc: Global,
    text: &str,
    left: &mut Vec<u8>,
    out: &mut String,
) -> Result<u64, Fault> {
    let mut differing: u64 = 0;
    for group in &read(alloc, text, &["ext", "words"])? {
        tell_group(out, group)?;
        for case in &group.cases {
            let difference = if case.verb.as_str() == "words" {
                asked_difference(alloc, case)?
            } else {
                ran_difference(wait, alloc, case, left)?
            };
            if tell_case(out, case, &difference)? {
                differing = differing.saturating_add(1);
            }
        }
    }
    Ok(differing)
}
