//! A program that reports files of cases.
use crate::judge::{Judge, report};
use crate::refusal::Fault;
use std::rt::{Env, Files};
use std::{env, fs, io};

/// The status of a program whose cases are as they have to be, of one of whose cases one differs, and of one that refuses a file.
pub const SAME: u8 = 0;

pub const DIFFERS: u8 = 1;

pub const REFUSED: u8 = 2;

/// Prints the report on each file that the program's arguments name, up to the first that is refused, and answers the program's
/// status: 0 if no case differs, 1 if one does, and 2 if no file is named, if a file cannot be read or is refused, or if the report
/// cannot be printed. The last line names the file that is refused, with the reason.
pub fn report_files<R: Env + Files + AllocGlobal + Print, J: Judge>(rt: &R, judge: &mut J) -> u8 {
    try_report_files(rt, judge).unwrap_or(REFUSED)
}

/// The status, or what fails where the arguments are read or the report is printed.
fn try_report_files<R: Env + Files + AllocGlobal + Print, J: Judge>(
    rt: &R,
    judge: &mut J,
) -> io::Result<u8> {
    let mut status = SAME;
    for name in &file_names(rt)? {
        let Some(text) = file_text(rt, name.as_str())? else {
            return Ok(REFUSED);
        };
        let mut out = String::new(rt.alloc());
        let reported = report(rt.alloc(), judge, text.as_str(), &mut out);
        status = status.max(print_report(rt, name.as_str(), out.as_str(), reported)?);
        if status == REFUSED {
            break;
        }
    }
    Ok(status)
}

/// The names of files that the program's arguments are.
///
/// # Errors
///
/// `InvalidInput` if there is none, which is printed, and what fails where they are read.
pub fn file_names<R: Env + AllocGlobal + Print>(rt: &R) -> io::Result<Vec<String>> {
    let names: Vec<String> = env::args(rt)?.skip(1).collect(rt.alloc())?;
    if names.is_empty() {
        println!(rt; "no file is named")?;
        return Err(io::ErrorKind::InvalidInput.into());
    }
    Ok(names)
}

/// The text of a file, or nothing if it cannot be read, which is printed.
///
/// # Errors
///
/// What fails where that is printed.
pub fn file_text<R: Files + AllocGlobal + Print>(rt: &R, name: &str) -> io::Result<Option<String>> {
    match fs::read_to_string(rt, name) {
        Ok(text) => Ok(Some(text)),
        Err(_) => {
            println!(rt; "{name}: cannot be read")?;
            Ok(None)
        }
    }
}

/// Prints what there is to tell of a file and, if the file is refused, the reason. Answers the status that the file gives.
///
/// # Errors
///
/// What fails where that is printed.
pub fn print_report<R: Print>(
    rt: &R,
    name: &str,
    told: &str,
    reported: Result<u64, Fault>,
) -> io::Result<u8> {
    rt.print(told)?;
    match reported {
        Ok(0) => Ok(SAME),
        Ok(_) => Ok(DIFFERS),
        Err(fault) => {
            println!(rt; "{name}: {fault}")?;
            Ok(REFUSED)
        }
    }
}
