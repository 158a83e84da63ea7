// What a program says on standard error, a line each. Its exit status is always 0.
use crate::handle::StandardStreams;
use std::env::{Env, FillError};
use std::fmt;
use std::fmt::{Display, Formatter};
use std::io::{Error, ErrorKind, Write};

// Why a call failed, without the number that std puts behind the words.
#[derive(Drop)]
struct Reason(Error);

impl Display for Reason {
    fn fmt<W: fmt::Write>(&self, f: &mut Formatter<W>) -> fmt::Result {
        let mut room = [0u8; 256];
        let mut rest = &mut room[..];
        if write!(rest, "{}", self.0).is_err() {
            return Display::fmt(&self.0, f);
        }
        match str::from_utf8(&room) {
            Ok(text) => f.write_str(words_of(text)),
            Err(_) => Display::fmt(&self.0, f),
        }
    }
}

// What stands before the number, or before the bytes that are not used.
fn words_of(text: &str) -> &str {
    match text.split_once(" (os error ") {
        Some((words, _)) => words,
        None => text.trim_end_matches('\0'),
    }
}

// A program that takes no argument says how it is used where it has one, and is not to go on.
pub fn misused(rt: &(impl Env + StandardStreams), usage: &[u8]) -> bool {
    if let Err(FillError::NotPresent) = rt.arg(1, &mut []) {
        return false;
    }
    rt.complain(usage);
    true
}

// The input cannot be read behind this record, for this reason.
pub fn unread(rt: &impl StandardStreams, program: &[u8], record: u64, reason: Error) {
    rt.complain(program);
    let reason = Reason(reason);
    let _ = eprintln!(rt; ": standard input cannot be read after record {record}: {reason}");
}

// The output cannot be written behind the line of this record. A reader that went away ends a program quietly, as pipes do.
pub fn unwritten(rt: &impl StandardStreams, program: &[u8], record: u64, reason: Error) {
    if reason.kind() == ErrorKind::BrokenPipe {
        return;
    }
    rt.complain(program);
    let reason = Reason(reason);
    let _ = eprintln!(rt; ": standard output cannot be written after record {record}: {reason}");
}
