//! The texts of errors: why a turn isn't taken, and why a host ended before its input.
use crate::cases::{Life, all_live};
use app_tun_services::ServeError;
use app_tun_services::link::TurnError;
use std::alloc::Global;

/// An error, and its text.
struct End(ServeError, &'static str);

impl Life for End {
    fn stops_at(&self, alloc: Global) -> Option<usize> {
        match self.0.to_string(alloc) {
            Ok(text) if text.as_str() == self.1 => None,
            _ => Some(0),
        }
    }
}

/// Each as the host says it, so those of turns stand in its own.
static ENDS: [End; 11] = [
    End(ServeError::Turn(TurnError::Length), "a packet is too long"),
    End(
        ServeError::Turn(TurnError::Moment),
        "a moment is out of order",
    ),
    End(
        ServeError::Turn(TurnError::Cut),
        "the input ends inside a turn",
    ),
    End(ServeError::Turn(TurnError::Memory), "out of memory"),
    End(ServeError::Turn(TurnError::Reader), "the reader failed"),
    End(ServeError::Settings, "the first turn has no settings"),
    End(ServeError::Address, "an address isn't a host's"),
    End(
        ServeError::Hardware,
        "the hardware address isn't a station's",
    ),
    End(ServeError::Memory, "out of memory"),
    End(ServeError::Writer, "the writer failed"),
    End(ServeError::Turns, "too many turns"),
];

#[test]
fn errors_have_their_texts(rt: HostRuntime) {
    all_live(&rt, &ENDS);
}
