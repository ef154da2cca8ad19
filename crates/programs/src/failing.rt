// Why a program has printed nothing, or not all.
use std::error::Error;
use std::{fmt, io};

// Its input could not be read, or its output not be written.
#[derive(Clone, Copy, Debug)]
pub enum Failure {
    Input(io::Error),
    Output(io::Error),
}

impl fmt::Display for Failure {
    fn fmt<W: fmt::Write>(&self, f: &mut fmt::Formatter<W>) -> fmt::Result {
        match self {
            Failure::Input(error) => write!(f, "standard input: {error}"),
            Failure::Output(error) => write!(f, "standard output: {error}"),
        }
    }
}

impl Error for Failure {}
