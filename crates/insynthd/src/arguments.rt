use std::alloc::AllocError;
use std::env::{Env, FillError};
use std::{env, io};

/// Why the words after the program's name weren't read.
#[derive(Clone, Copy, Debug, PartialEq, Eq)]
pub enum Unread {
    /// The word of this number isn't UTF-8; it is the first such word, and words are counted from 0.
    NotText(u32),
    OutOfMemory,
}

/// So many bytes of a word are looked at; the system hands over no longer one.
const LONGEST_WORD: usize = 1 << 17;

/// Whether the word of a number is UTF-8; None where there is none.
fn is_text<R: Env>(rt: &R, number: u32, room: &mut [u8]) -> Option<bool> {
    let argument = number as usize + 1;
    match rt.arg(argument, room) {
        Ok(length) => {
            let bytes = room.get(..length)?;
            Some(str::from_utf8(bytes).is_ok())
        }
        Err(FillError::TooLong) => Some(true),
        Err(FillError::NotPresent) => None,
    }
}

/// The number of the first word that isn't UTF-8.
fn first_that_is_no_text(rt: &HostRuntime) -> Result<u32, AllocError> {
    let mut room = vec![in rt.alloc(); 0; LONGEST_WORD]?;
    for number in 0..u32::MAX {
        match is_text(rt, number, room.as_mut_slice()) {
            Some(true) => {}
            Some(false) => return Ok(number),
            None => return Ok(0),
        }
    }
    Ok(0)
}

/// Why the words couldn't be taken, as the system's fault says.
fn why_unread(rt: &HostRuntime, fault: &io::Error) -> Unread {
    if let io::ErrorKind::OutOfMemory = fault.kind() {
        return Unread::OutOfMemory;
    }
    match first_that_is_no_text(rt) {
        Ok(number) => Unread::NotText(number),
        Err(_) => Unread::OutOfMemory,
    }
}

/// The words after the program's name.
pub fn words_of(rt: &HostRuntime) -> Result<Vec<String>, Unread> {
    match env::args(rt) {
        Ok(arguments) => arguments
            .skip(1)
            .collect(rt.alloc())
            .map_err(|_error| Unread::OutOfMemory),
        Err(fault) => Err(why_unread(rt, &fault)),
    }
}
