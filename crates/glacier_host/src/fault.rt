// Why an accept failed.
use std::io::{Error, ErrorKind};

// Errors of Linux that have no kind of their own, by their numbers.
const EPERM: i32 = 1;

const ENOMEM: i32 = 12;

const ENFILE: i32 = 23;

const EMFILE: i32 = 24;

const ENONET: i32 = 64;

const EPROTO: i32 = 71;

const ENOPROTOOPT: i32 = 92;

const EOPNOTSUPP: i32 = 95;

const ENOBUFS: i32 = 105;

const EHOSTDOWN: i32 = 112;

/// Why an accept failed.
#[derive(Clone, Copy)]
pub enum AcceptFault {
    /// No connection waits.
    NotYet,
    /// It was interrupted, or it told the fault of the connection that it would have given
    /// (accept(2)), whose peer had gone or couldn't be reached: the next may be taken.
    Passing,
    /// Descriptors or memory are wanting.
    Shortage,
    /// The listener is of no use any more.
    Lasting,
}

impl AcceptFault {
    pub fn of(fault: &Error) -> AcceptFault {
        match fault.kind() {
            ErrorKind::WouldBlock => return AcceptFault::NotYet,
            ErrorKind::Interrupted
            | ErrorKind::ConnectionAborted
            | ErrorKind::ConnectionReset
            | ErrorKind::HostUnreachable
            | ErrorKind::NetworkUnreachable
            | ErrorKind::NetworkDown
            | ErrorKind::TimedOut => return AcceptFault::Passing,
            _ => {}
        }
        match fault.raw_os_error() {
            Some(EPERM | ENONET | EPROTO | ENOPROTOOPT | EOPNOTSUPP | EHOSTDOWN) => {
                AcceptFault::Passing
            }
            Some(ENOMEM | ENFILE | EMFILE | ENOBUFS) => AcceptFault::Shortage,
            _ => AcceptFault::Lasting,
        }
    }
}
