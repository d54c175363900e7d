use std::fs::File;
use std::io;
use std::io::{ErrorKind, Read, Stdin, Stdout, Write};

/// Where the bytes of an end come from. It tells nothing of them.
#[derive(Drop)]
pub enum Input {
    Standard(Stdin),
    File(File),
    /// A file that couldn't be opened: each read fails.
    Unopened,
}

impl Read for Input {
    fn read(&mut self, buf: &mut [u8]) -> io::Result<usize> {
        match self {
            Input::Standard(input) => input.read(buf),
            Input::File(file) => file.read(buf),
            Input::Unopened => Err(io::Error::from(ErrorKind::NotFound)),
        }
    }
}

/// Where the bytes of an end go. It tells nothing of them.
#[derive(Drop)]
pub enum Output {
    Standard(Stdout),
    File(File),
    /// A file that couldn't be made: each write fails.
    Unopened,
}

impl Write for Output {
    fn write(&mut self, buf: &[u8]) -> io::Result<usize> {
        match self {
            Output::Standard(output) => output.write(buf),
            Output::File(file) => file.write(buf),
            Output::Unopened => Err(io::Error::from(ErrorKind::NotFound)),
        }
    }

    fn flush(&mut self) -> io::Result<()> {
        match self {
            Output::Standard(output) => output.flush(),
            Output::File(file) => file.flush(),
            Output::Unopened => Err(io::Error::from(ErrorKind::NotFound)),
        }
    }
}
