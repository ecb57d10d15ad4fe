//! What a socket may ask of the interface that polls it.
ghost use Rattle.std.specs.Prelude.{◌≡◌};
ghost use Rattle.net_base.specs.Time.{IsMoment};
ghost use Rattle.net_base.specs.RandomWords.{word};
ghost use Rattle.socket_context.specs.Context.{ContextValue, next_random};

use ip_wire::IpAddress;
use net_base::{ChecksumCapabilities, Instant};

/// What a socket may ask of the interface that it works for.
pub trait Context {
    /// what the answers are, as a value
    ghost context: { Self → ContextValue };

    /// the context after a random word was drawn
    ghost drawn: { Self → Self };

    /// The instant of the call of the interface that is running.
    fn now(&self) -> Instant
        ensures value { result ≡ (context self.now).instant }
        ensures instant { IsMoment result };

    /// Whether this is an address of the interface.
    fn has_ip_addr(&self, addr: &IpAddress) -> bool
        ensures { result ≡ (context self.now).has_ip_addr addr.now };

    /// The address that a packet to this destination is sent from, if the interface has one for it.
    fn get_source_address(&self, dst_addr: &IpAddress) -> Option<IpAddress>
        ensures { result ≡ (context self.now).source_for dst_addr.now };

    /// Whether this is a broadcast address of the interface's network.
    fn is_broadcast(&self, addr: &IpAddress) -> bool
        ensures { result ≡ (context self.now).is_broadcast addr.now };

    /// The longest IP packet that a frame holds.
    fn ip_mtu(&self) -> usize
        ensures { result ≡ (context self.now).ip_mtu };

    /// Which checksums the stack handles itself.
    fn checksum_caps(&self) -> ChecksumCapabilities
        ensures { result ≡ (context self.now).checksums };

    /// The key by which the initial sequence numbers of TCP connections are told, if it has one.
    fn isn_key(&self) -> Option<[u8; 16]>
        ensures { result ≡ (context self.now).isn_key };

    /// Draws a random word.
    fn rand_u32(&mut self) -> u32
        ensures word { result ≡ word (context self.new).random }
        ensures state { self.new ≡ drawn self.old };

    /// a drawn word changes the state of the random words alone
    ghost drawn_context: { (cx : Self) → context (drawn cx) ≡ next_random (context cx) };
}
