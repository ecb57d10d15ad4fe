//! Router advertisements.
ghost use Rattle.std.specs.Prelude.{◌≡◌, ◌+◌, ◌≤◌, IfOk, IsOk, ◌↔◌, length, drop};
ghost use Rattle.wire_router.specs.Advert.{IsRouterAdvert, preference_of, preference_number, options_in, spelling};
ghost use Rattle.wire_router.specs.declared.advert.RouterAdvert.{RouterAdvert};

use crate::options::are_options;
use wire_address::Error;
use wire_address::network_order::{read_u16, read_u32};

/// The bytes before the options.
const HEADER_LEN: usize = 16;

const ROUTER_ADVERT: u8 = 134;

const MANAGED: u8 = 128;

const OTHER: u8 = 64;

const PREFERENCE: u8 = 8;

/// Which of several routers is to be taken (RFC 4191, section 2.1).
#[derive(Clone, Copy, Debug, PartialEq, Eq)]
pub enum RouterPreference {
    Low,
    Medium,
    High,
}

impl RouterPreference {
    /// The preference of two bits. The reserved value counts as medium (RFC 4191, section 2.2).
    fn of(bits: u8) -> RouterPreference
        ensures { result ≡ preference_of bits }
    {
        match bits {
            1 => RouterPreference::High,
            3 => RouterPreference::Low,
            _ => RouterPreference::Medium,
        }
    }

    fn number(self) -> u8
        ensures value { result ≡ preference_number self }
        ensures small { result ≤ 3 }
    {
        match self {
            RouterPreference::Medium => 0,
            RouterPreference::High => 1,
            RouterPreference::Low => 3,
        }
    }
}

/// A router advertisement, but for its options.
#[derive(Clone, Copy, Debug, PartialEq, Eq)]
pub struct RouterAdvert {
    /// The hop limit of packets that hosts send; 0 where the router doesn't say.
    pub hop_limit: u8,
    /// Addresses are had by DHCPv6.
    pub managed: bool,
    /// Other settings are had by DHCPv6.
    pub other: bool,
    pub preference: RouterPreference,
    /// In seconds; 0 for a router that is no default router.
    pub router_lifetime: u16,
    /// In milliseconds; 0 where the router doesn't say.
    pub reachable_time: u32,
    /// In milliseconds; 0 where the router doesn't say.
    pub retrans_time: u32,
}

impl RouterAdvert {
    /// The advertisement in an ICMPv6 message, whose options are whole (RFC 4861, section 6.1.2). Its checksum isn't looked at.
    pub fn parse(message: &[u8]) -> Result<RouterAdvert, Error>
        ensures found { IfOk result (λ v. IsRouterAdvert message.now v) }
        ensures only { (v : RouterAdvert) → IsRouterAdvert message.now v → result ≡ Ok v }
    {
        if message.len() < HEADER_LEN || message[0] != ROUTER_ADVERT || message[1] != 0 {
            return Err(Error);
        }
        if !are_options(RouterAdvert::options(message)) {
            return Err(Error);
        }
        let flags = message[5];
        Ok(RouterAdvert {
            hop_limit: message[4],
            managed: flags / MANAGED == 1,
            other: flags / OTHER % 2 == 1,
            preference: RouterPreference::of(flags / PREFERENCE % 4),
            router_lifetime: read_u16(message, 6),
            reachable_time: read_u32(message, 8),
            retrans_time: read_u32(message, 12),
        })
    }

    /// The bytes of the options.
    pub fn options(message: &[u8]) -> &[u8]
        requires { 16 ≤ length message.now }
        ensures { result.now ≡ options_in message.now }
    {
        let (_header, options) = message.split_at(HEADER_LEN);
        options
    }

    /// Writes the advertisement with these options over the whole buffer, with 0 for its checksum.
    pub fn emit(&self, message: &mut [u8], options: &[u8])
        requires { length message.old ≡ 16 + length options.now }
        ensures { message.new ≡ spelling self.now options.now }
    {
        let [high, low] = self.router_lifetime.to_be_bytes();
        let managed = if self.managed { MANAGED } else { 0 };
        let other = if self.other { OTHER } else { 0 };
        let flags = managed + other + PREFERENCE * self.preference.number();
        let (header, rest) = message.split_at_mut(HEADER_LEN);
        let (front, times) = header.split_at_mut(8);
        front.copy_from_slice(&[ROUTER_ADVERT, 0, 0, 0, self.hop_limit, flags, high, low]);
        let (reachable, retrans) = times.split_at_mut(4);
        reachable.copy_from_slice(&self.reachable_time.to_be_bytes());
        retrans.copy_from_slice(&self.retrans_time.to_be_bytes());
        rest.copy_from_slice(options);
    }
}
