// Why the program stops.
use std::{fmt, io};

#[derive(Clone, Copy)]
pub enum Failure {
    Input(io::Error),
    Output(io::Error),
    NothingTaken,
}

impl fmt::Display for Failure {
    fn fmt<W: fmt::Write>(&self, f: &mut fmt::Formatter<W>) -> fmt::Result {
        match self {
            Failure::Input(error) => write!(f, "standard input: {error}"),
            Failure::Output(error) => write!(f, "standard output: {error}"),
            Failure::NothingTaken => write!(f, "standard output: nothing was taken"),
        }
    }
}
