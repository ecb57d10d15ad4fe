//! A page that is fetched from a host by HTTP/1.0, whose server closes after it.
use sockets::tcp::{self, RecvError};

/// The port of servers.
pub const PORT: u16 = 80;
/// The port that it is fetched from.
pub const OWN_PORT: u16 = 49_152;
/// How many bytes the socket has room for, each way.
pub const ROOM: usize = 4096;
/// What is sent.
const REQUEST: &[u8] = b"GET / HTTP/1.0\r\n\r\n";

/// A page on its way.
#[derive(Clone, Copy, Debug)]
pub struct Page {
    asked: bool,
    count: u64,
}

impl Page {
    /// One that isn't asked for yet.
    pub const NEW: Page = Page {
        asked: false,
        count: 0,
    };

    /// Asks for it as soon as there is a connection, and reads what came: how many bytes it has, once all came.
    pub fn read(&mut self, socket: &mut tcp::Socket) -> Option<u64> {
        if !self.asked && socket.can_send() {
            self.asked = socket.send_slice(REQUEST).is_ok();
        }
        let mut buffer = [0; 512];
        for _ in 0..16 {
            match socket.recv_slice(&mut buffer) {
                Ok(0) => return None,
                Ok(count) => self.count = self.count.saturating_add(count as u64),
                Err(RecvError::Finished) => {
                    socket.close();
                    return Some(self.count);
                }
                Err(RecvError::InvalidState) => return None,
            }
        }
        None
    }
}
