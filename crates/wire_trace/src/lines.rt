//! What a tracer writes frames by.
use crate::line::trace_line;
use base_wrappers::{Direction, FrameWriter};
use net_base::{Instant, Medium};
use std::alloc::{AllocError, Global};

/// Frames as lines of text, those that come and those that are sent.
#[derive(Debug, Drop)]
pub struct TraceLines {
    alloc: Global,
    medium: Medium,
}

impl TraceLines {
    /// Lines for the frames of this medium. `alloc` serves the text.
    pub fn new(alloc: Global, medium: Medium) -> TraceLines {
        TraceLines { alloc, medium }
    }
}

impl FrameWriter for TraceLines {
    ghost use Rattle.std.specs.Prelude.{true};

    ghost takes = { λ lines direction. true };

    ghost writes = { λ lines instant direction frame bytes. Unit {0} };

    fn takes(&self, _direction: Direction) -> bool {
        true
    }

    fn write(
        &self,
        instant: Instant,
        direction: Direction,
        frame: &[u8],
        line: &mut Vec<u8>,
    ) -> Result<(), AllocError> {
        let mut text = String::new(self.alloc);
        trace_line(
            self.alloc,
            self.medium,
            instant,
            direction,
            frame,
            &mut text,
        )?;
        line.extend_from_slice(text.as_bytes())
    }
}
