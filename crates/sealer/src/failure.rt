// Why the command could not do what was asked.
use std::alloc::AllocError;
use std::error::Error;
use std::{fmt, io};

#[derive(Debug, Drop)]
pub enum Failure {
    // There is no command of this name.
    NoCommand(String),
    // `digest` was given no name.
    NoName,
    // Some files could not be read. Each was named on standard error when it was tried.
    Unread,
    // Standard output or standard error could not be written.
    NoOutput,
    NoMemory,
}

impl fmt::Display for Failure {
    fn fmt<W: fmt::Write>(&self, f: &mut fmt::Formatter<W>) -> fmt::Result {
        match self {
            Failure::NoCommand(name) => {
                write!(f, "there is no command '{name}'; try: sealer help")
            }
            Failure::NoName => {
                write!(
                    f,
                    "digest wants the name of a file, or - for standard input"
                )
            }
            Failure::Unread => write!(f, "not every file could be read"),
            Failure::NoOutput => write!(f, "the output could not be written"),
            Failure::NoMemory => write!(f, "there is not enough memory"),
        }
    }
}

impl Error for Failure {}

impl From<io::Error> for Failure {
    fn from(_e: io::Error) -> Failure {
        Failure::NoOutput
    }
}

impl From<AllocError> for Failure {
    fn from(_e: AllocError) -> Failure {
        Failure::NoMemory
    }
}
