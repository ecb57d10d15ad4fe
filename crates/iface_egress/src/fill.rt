//! Frames that are written in place.
ghost use Rattle.std.specs.Prelude.{◌≡◌, ℕ, ◌+◌, ◌<◌, ◌^◌, List, length};
ghost use Rattle.iface_egress.specs.Emits.{Emits};

use net_base::Device;

/// What fills a frame.
pub trait Fill {
    /// the bytes
    ghost filled: { Self → List ℕ };

    /// how many they are
    ghost len: { Self → ℕ };

    /// what can be written
    ghost fits: { Self → Type 0 };

    /// The frame's length.
    fn frame_len(&self) -> usize
        requires { fits self.now }
        ensures { result ≡ len self.now };

    /// Writes the frame over the whole buffer.
    fn fill(&self, buffer: &mut [u8])
        requires fits { fits self.now }
        requires room { length buffer.old ≡ len self.now }
        ensures { buffer.new ≡ filled self.now };
}

/// Sends a frame, which is written in the device's own buffer. Says whether the device took it.
pub fn send<D: Device, F: Fill>(device: &mut D, token: D::TxToken, frame: &F) -> bool
    requires room { D.refused device.old + 1 < 2 ^ 64 }
    requires fits { F.fits frame.now }
    ensures emits { Emits D.moves device.old (F.filled frame.now) (F.len frame.now) result device.new }
    ensures capabilities { D.described device.new ≡ D.described device.old }
{
    let len = frame.frame_len();
    device
        .send(token, len, |buffer: &mut [u8]| frame.fill(buffer))
        .is_ok()
}
