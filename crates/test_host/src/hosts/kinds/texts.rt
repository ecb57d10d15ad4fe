//! The texts of errors.
use crate::cases::{all, prints};
use sockets::raw;
use sockets::udp::{BindError, RecvError, SendError};

#[test]
fn texts_name_the_errors(rt: HostRuntime) {
    let alloc = rt.alloc();
    all(
        &rt,
        &[
            prints(alloc, &BindError::InvalidState, "invalid state"),
            prints(alloc, &BindError::Unaddressable, "unaddressable"),
            prints(alloc, &SendError::BufferFull, "buffer full"),
            prints(alloc, &raw::SendError::BufferFull, "buffer full"),
            prints(alloc, &RecvError::Exhausted, "exhausted"),
            prints(alloc, &RecvError::Truncated, "truncated"),
        ],
    );
}
