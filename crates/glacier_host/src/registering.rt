// Which sockets a wait tells of.
use crate::watch::Watch;
use glacier_base::Failed;
use mio::unix::SourceFd;
use mio::{Interest, Poll, Token};
use std::os::fd::RawFd;

/// Has a wait tell of a socket, and of what is there already.
pub fn register(poll: &Poll, descriptor: RawFd, token: usize) -> Result<(), Failed> {
    let mut source = SourceFd(&descriptor);
    match poll
        .registry()
        .register(&mut source, Token(token), Interest::READABLE)
    {
        Ok(()) => Ok(()),
        Err(_) => Err(Failed),
    }
}

/// Has a wait tell too when a socket takes bytes.
pub fn register_for_writing(poll: &Poll, watch: &mut Watch) -> Result<(), Failed> {
    if watch.for_writing {
        return Ok(());
    }
    let descriptor = watch.descriptor;
    let mut source = SourceFd(&descriptor);
    let both = Interest::READABLE | Interest::WRITABLE;
    let token = Token(watch.place);
    let done = if watch.is_registered {
        poll.registry().reregister(&mut source, token, both)
    } else {
        poll.registry().register(&mut source, token, both)
    };
    match done {
        Ok(()) => {
            watch.is_registered = true;
            watch.for_writing = true;
            Ok(())
        }
        Err(_) => Err(Failed),
    }
}
