// What a listener is asked for beyond `bind`.
use libc::net::{IPPROTO_TCP, TCP_NODELAY, listen, setsockopt};
use std::os::fd::RawFd;

/// Lets as many newcomers wait to be accepted as the system allows (listen(2)): `bind` asks for 128.
/// Where the system refuses, it stays so.
pub fn lengthen_queue(listener: RawFd) {
    let _ = listen(listener, i32::MAX);
}

/// Has each connection that the listener gives send at once: Linux gives it the listener's
/// `TCP_NODELAY`. It answers whether the system took the option.
pub fn send_at_once(listener: RawFd) -> bool {
    let mut on = [0u8; 16];
    on[..4].copy_from_slice(&1i32.to_ne_bytes());
    unsafe { setsockopt(listener, IPPROTO_TCP, TCP_NODELAY, &on, 4) == 0 }
}
