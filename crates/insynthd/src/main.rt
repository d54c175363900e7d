// The program: it makes ends of standard input and output, of the files of the pairs among its words and of the files
// of the machine, lets `run` do the work, and exits with its code. What it prints on standard error is not proved. It
// stands on `serving` and `outside`, and on `command_line`, `statuses` and `usage` for what it prints.
#![tactic(auto)]

mod arguments;
mod streams;

use crate::arguments::{Unread, words_of};
use crate::streams::{Input, Output};
use command_line::{Refused, UsageFault, client_names, read_command};
use outside::{End, FileShelf, ReaderSource, WriterSink};
use serving::run;
use statuses::{NO_MEMORY, Status, reason_of};
use std::alloc::AllocError;
use std::fs::File;
use std::process::ExitCode;
use usage::usage_text;

/// One end of the program.
type StreamEnd<'r> = End<ReaderSource<Input>, WriterSink<Output>, FileShelf<'r, HostRuntime>>;

/// The end of these streams, with the files of the machine.
fn end_over(rt: &HostRuntime, input: Input, output: Output) -> StreamEnd<'_> {
    End {
        source: ReaderSource::new(input),
        sink: WriterSink::new(output),
        shelf: FileShelf::new(rt, rt.alloc()),
    }
}

/// The end of a pair of files: one that is read, and one that is made or emptied and written. Where one can't be opened
/// the end fails at its first read or write.
fn end_of_files<'r>(rt: &'r HostRuntime, input: &str, output: &str) -> StreamEnd<'r> {
    let input = match File::open(rt, input) {
        Ok(file) => Input::File(file),
        Err(_) => Input::Unopened,
    };
    let output = match File::create(rt, output) {
        Ok(file) => Output::File(file),
        Err(_) => Output::Unopened,
    };
    end_over(rt, input, output)
}

/// Opens the files of the pairs, in the order of the words.
fn open_files<'r>(
    rt: &'r HostRuntime,
    ends: &mut Vec<StreamEnd<'r>>,
    names: &[(String, String)],
) -> Result<(), AllocError> {
    for (input, output) in names {
        ends.push(end_of_files(rt, input.as_str(), output.as_str()))?;
    }
    Ok(())
}

/// The ends that the words name: standard input and output, and the pairs of files of a server. Where the words ask for
/// nothing no file is opened.
fn ends_for<'r>(rt: &'r HostRuntime, words: &[String]) -> Result<Vec<StreamEnd<'r>>, AllocError> {
    let mut ends = Vec::new(rt.alloc());
    ends.push(end_over(
        rt,
        Input::Standard(rt.stdin()),
        Output::Standard(rt.stdout()),
    ))?;
    match client_names(rt.alloc(), words) {
        Ok(names) => open_files(rt, &mut ends, names.as_slice())?,
        Err(Refused::Fault(_)) => {}
        Err(Refused::OutOfMemory) => return Err(AllocError),
    }
    Ok(ends)
}

/// Prints which word can't stand there, and how the program is called. A text that finds no memory is left out.
fn print_usage(rt: &HostRuntime, place: u64) {
    let Ok(word) = u32::try_from(place) else {
        return;
    };
    if let Ok(message) = (UsageFault { word }).to_string(rt.alloc()) {
        let _printed = eprintln!(rt; "{message}");
    }
    if let Ok(text) = usage_text(rt.alloc()) {
        let _printed = eprint!(rt; "{text}");
    }
}

/// Prints the line of a status.
fn print_status(rt: &HostRuntime, status: &Status) {
    if status.code != 0 {
        let _printed = eprintln!(rt; "insynthd: {status}");
    }
    if status.code == 2 && status.cause == 1 {
        print_usage(rt, status.place);
    }
}

/// Prints that memory was wanting, in words.
fn print_no_memory(rt: &HostRuntime) {
    let _printed = eprintln!(rt; "insynthd: {NO_MEMORY}");
}

/// Prints a status, and where and why in words. Where the words ask for nothing, memory alone may have been wanting, before
/// the first wrong one was found.
fn print_ending(rt: &HostRuntime, words: &[String], status: &Status) {
    print_status(rt, status);
    match read_command(words) {
        Ok(command) => {
            if let Some(reason) = reason_of(&command, status) {
                let _printed = eprintln!(rt; "insynthd: {reason}");
            }
        }
        Err(_) => {
            if status.code == 6 {
                print_no_memory(rt);
            }
        }
    }
}

/// Prints why the words weren't read, and answers the status.
fn print_unread(rt: &HostRuntime, fault: Unread) -> Status {
    match fault {
        Unread::NotText(word) => {
            let status = Status::usage(word as u64, 1);
            print_status(rt, &status);
            status
        }
        Unread::OutOfMemory => {
            let status = Status::plain(6);
            print_status(rt, &status);
            print_no_memory(rt);
            status
        }
    }
}

fn main(rt: HostRuntime) -> ExitCode {
    let status = match words_of(&rt) {
        Ok(words) => {
            let status = match ends_for(&rt, words.as_slice()) {
                Ok(mut ends) => run(&rt, rt.alloc(), words.as_slice(), &mut ends),
                Err(_) => Status::plain(6),
            };
            print_ending(&rt, words.as_slice(), &status);
            status
        }
        Err(fault) => print_unread(&rt, fault),
    };
    ExitCode::from(status.code)
}
