//! A host at the link.
ghost use Rattle.std.specs.Prelude.{◌≡◌, ◌≤◌, length, drop};
ghost use Rattle.net_base.specs.Device.{frames_of};

use interface::{Interface, SocketSet};
use sim_link::Port;
use sockets::Socket;
use std::marker::Model;

/// A host at the link: its interface, its sockets, and the port through which its frames come and go. Its interface has no host requirements, and
/// tells nothing of multicast groups.
#[derive(Drop)]
pub struct Host {
    pub interface: Interface,
    pub sockets: SocketSet<Socket>,
    pub port: Port,
}

impl Model for Host {
    ghost use Rattle.std.specs.Prelude.{◌≡◌, None, false};
    ghost use Rattle.interface.specs.Set.{slots};
    ghost use Rattle.lan.specs.Worlds.AtLink.Node.{NodeValue};

    ghost Value = { NodeValue };

    ghost view = { λ h. record { host = h.interface; slots = slots h.sockets; link = h.port.link } };

    ghost invariant = { λ h. (h.interface.reports ≡ None) × (h.interface.inner.host_requirements ≡ false) };
}

impl Host {
    /// How many frames the host has sent, the link's fragments among them.
    pub fn sent_count(&self) -> usize
        ensures { result ≡ length self.now.link.sent }
    {
        self.port.sent().len()
    }

    /// How many frames wait for the host.
    pub fn waiting_count(&self) -> usize
        ensures { result ≡ length self.now.link.waiting }
    {
        self.port.waiting().len()
    }

    /// The sent frames but for so many.
    #[tactic(auto, using(crate::proofs::Worlds::AtLink::Counting::frames_following))]
    pub(crate) fn sent_since(&self, before: usize) -> &[Vec<u8>]
        requires { before ≤ length self.now.link.sent }
        ensures { frames_of result.now ≡ drop before self.now.link.sent }
    {
        self.port.sent().split_at(before).1
    }
}
