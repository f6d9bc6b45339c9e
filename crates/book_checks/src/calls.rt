//! The answers of the calls on a book, each brought into one form, so that one function prints every answer.
use book::{Head, LoadError, Refusal};
use std::fmt;

// What a command answers: nothing, where it only stores; else document 01's number, with what comes beside it.
#[derive(Clone, Copy)]
pub enum Reply {
    Stored,
    Number(u32),
    Absent,
    Frequency(u32, u64),
    Line(u32, u64),
}

impl fmt::Display for Reply {
    fn fmt<W: fmt::Write>(&self, f: &mut fmt::Formatter<W>) -> fmt::Result {
        match self {
            Reply::Stored => write!(f, " stored"),
            Reply::Number(n) => write!(f, " {n}"),
            Reply::Absent => write!(f, " 0, absent"),
            Reply::Frequency(n, frequency) => write!(f, " {n}, frequency {frequency}"),
            Reply::Line(n, line) => write!(f, " {n}, line {line}"),
        }
    }
}

// A refused preparation gives no head: the old one stays.
pub fn prepared(head: &mut Head, answer: Result<Head, Refusal>) -> Reply {
    match answer {
        Ok(ready) => {
            *head = ready;
            Reply::Number(0)
        }
        Err(refusal) => Reply::Number(book::number_of(Err(refusal))),
    }
}

pub fn loaded(answer: Result<usize, LoadError>) -> Reply {
    match answer {
        Ok(lines) => Reply::Line(0, lines as u64),
        Err(LoadError { refusal, line }) => Reply::Line(book::number_of(Err(refusal)), line as u64),
    }
}

pub fn added(answer: Result<u64, Refusal>) -> Reply {
    match answer {
        Ok(frequency) => Reply::Frequency(0, frequency),
        Err(refusal) => Reply::Frequency(book::number_of(Err(refusal)), 0),
    }
}

pub fn found(answer: Result<Option<u32>, Refusal>) -> Reply {
    match answer {
        Ok(Some(n)) => Reply::Frequency(0, n as u64),
        Ok(None) => Reply::Absent,
        Err(refusal) => Reply::Number(book::number_of(Err(refusal))),
    }
}
