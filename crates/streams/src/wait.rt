// Waiting for a descriptor that is not ready. std has no poll, so a program looks again every millisecond.
use std::io::{Error, ErrorKind};
use std::thread;
use std::time::{Clock, Duration};

// Waits for a millisecond.
pub fn pause(rt: &impl Clock) {
    thread::sleep(rt, Duration::from_millis(1));
}

// Did a call fail only because nothing is there yet, or because a signal came?
pub fn is_early(reason: Error) -> bool {
    matches!(
        reason.kind(),
        ErrorKind::WouldBlock | ErrorKind::Interrupted
    )
}
