//! Messages written.
ghost use Rattle.std.specs.Prelude.{◌≡◌, ◌↔◌, ℕ, ◌+◌, ◌-◌, ◌*◌, ◌<◌, ◌≤◌, IsTrue, Some, ◌∷◌, ◌++◌, length, take, replicate};
ghost use Rattle.std.specs.Int.{w16, w32, to_be_bytes};
ghost use Rattle.wire_address.specs.Extends.{Extends};
ghost use Rattle.wire_dhcp.specs.Options.{seen};
ghost use Rattle.wire_dhcp.specs.MessageType.{type_number};
ghost use Rattle.wire_dhcp.specs.Written.{Fits, FitsInside, inside_bytes, address_inside, number16_inside, number32_inside, hardware_addr_inside, addresses_bytes};
ghost use Rattle.wire_dhcp.specs.Written.{addresses_inside, client_bytes, name_bytes, time_bytes, network_bytes, flag_byte, unused, front, fixed};
ghost use Rattle.wire_dhcp.specs.Written.{options_bytes, padding, buffer_len, written};

use crate::area::are_options;
use crate::field;
use crate::repr::{DhcpRepr, MAX_DNS_SERVER_COUNT};
use wire_address::{EthernetAddress, Ipv4Address};

/// The length to which messages are filled with zeros (RFC 1542, section 2.1).
const MIN_LEN: usize = 300;

impl<'a> DhcpRepr<'a> {
    /// Whether the names fit their options, as those that were read do, and the further options are whole.
    pub fn fits(&self) -> bool
        ensures { IsTrue result ↔ Fits self.now }
    {
        fits_inside(self.host_name)
            && fits_inside(self.parameter_request_list)
            && are_options(self.additional_options)
    }

    /// The length of the message.
    pub fn buffer_len(&self) -> usize
        requires { Fits self.now }
        ensures { result ≡ buffer_len self.now }
    {
        let known = self.client_len() + self.names_len() + self.times_len() + self.network_len();
        let options = known + self.additional_options.len();
        (field::HEADER_LEN + options + 1).max(MIN_LEN)
    }

    #[tactic(auto, unfolding(crate::specs::Written::client_bytes))]
    fn client_len(&self) -> usize
        ensures exact { result ≡ length (client_bytes self.now) }
        ensures small { result < 100 }
    {
        3 + hardware_addr_len(&self.client_identifier)
            + address_len(&self.requested_ip)
            + size_len(&self.max_size)
    }

    #[tactic(auto, unfolding(crate::specs::Written::name_bytes))]
    fn names_len(&self) -> usize
        requires { Fits self.now }
        ensures exact { result ≡ length (name_bytes self.now) }
        ensures small { result < 1000 }
    {
        address_len(&self.server_identifier)
            + inside_len(self.host_name)
            + inside_len(self.parameter_request_list)
    }

    #[tactic(auto, unfolding(crate::specs::Written::time_bytes))]
    fn times_len(&self) -> usize
        ensures exact { result ≡ length (time_bytes self.now) }
        ensures small { result < 100 }
    {
        number_len(&self.lease_duration)
            + number_len(&self.renew_duration)
            + number_len(&self.rebind_duration)
    }

    #[tactic(auto, unfolding(crate::specs::Written::network_bytes))]
    fn network_len(&self) -> usize
        ensures exact { result ≡ length (network_bytes self.now) }
        ensures small { result < 100 }
    {
        address_len(&self.subnet_mask) + address_len(&self.router) + servers_len(&self.dns_servers)
    }

    /// Writes the message over the whole buffer.
    pub fn emit(&self, buffer: &mut [u8])
        requires room { length buffer.old ≡ buffer_len self.now }
        requires fits { Fits self.now }
        ensures { buffer.new ≡ written self.now }
    {
        let (header, area) = buffer.split_at_mut(field::HEADER_LEN);
        self.put_fixed(header);
        self.put_options(area);
    }

    /// Writes the options over the whole of `area`, and fills what is left with zeros.
    fn put_options(&self, area: &mut [u8])
        requires room { length area.old ≡ length (options_bytes self.now) + 1 + padding self.now }
        requires fits { Fits self.now }
        ensures { area.new ≡ options_bytes self.now ++ (255 ∷ replicate (padding self.now) 0) }
    {
        let at = self.put_client(area, 0);
        let at = self.put_names(area, at);
        let at = self.put_times(area, at);
        let at = self.put_network(area, at);
        let at = put_bytes(area, at, self.additional_options);
        put_end(area, at);
    }

    /// Writes the fixed fields over the whole of `header`.
    fn put_fixed(&self, header: &mut [u8])
        requires { length header.old ≡ 240 }
        ensures { header.new ≡ fixed self.now }
    {
        let (first, rest) = header.split_at_mut(field::CHADDR.start);
        self.put_front(first);
        has_six_bytes(self.client_hardware_address);
        let (hardware_addr, rest) = rest.split_at_mut(6);
        hardware_addr.copy_from_slice(&self.client_hardware_address.0);
        let (names, magic_number) = rest.split_at_mut(202);
        put_unused(names);
        magic_number.copy_from_slice(&field::DHCP_MAGIC_NUMBER.to_be_bytes());
    }

    /// Writes the fields up to the hardware address.
    fn put_front(&self, bytes: &mut [u8])
        requires { length bytes.old ≡ 28 }
        ensures { bytes.new ≡ front self.now }
    {
        let opcode = self.message_type.opcode().number();
        let flags = flag_byte(self.broadcast);
        let (head, rest) = bytes.split_at_mut(4);
        head.copy_from_slice(&[opcode, field::HTYPE_ETHERNET, 6, 0]);
        let (transaction, rest) = rest.split_at_mut(4);
        transaction.copy_from_slice(&self.transaction_id.to_be_bytes());
        let (secs, rest) = rest.split_at_mut(2);
        secs.copy_from_slice(&self.secs.to_be_bytes());
        let (bits, rest) = rest.split_at_mut(2);
        bits.copy_from_slice(&[flags, 0]);
        let (client, rest) = rest.split_at_mut(4);
        client.copy_from_slice(&self.client_ip.0);
        let (yours, rest) = rest.split_at_mut(4);
        yours.copy_from_slice(&self.your_ip.0);
        let (server, relay) = rest.split_at_mut(4);
        server.copy_from_slice(&self.server_ip.0);
        relay.copy_from_slice(&self.relay_agent_ip.0);
    }

    #[tactic(auto, unfolding(crate::specs::Written::client_bytes))]
    fn put_client(&self, area: &mut [u8], at: usize) -> usize
        requires { at + length (client_bytes self.now) ≤ length area.old }
        ensures { Extends area.old at area.new result (client_bytes self.now) }
    {
        let number = self.message_type.number();
        let at = put_option(area, at, field::OPT_DHCP_MESSAGE_TYPE, &[number]);
        let at = put_hardware_addr(area, at, &self.client_identifier);
        let at = put_address(area, at, field::OPT_REQUESTED_IP, &self.requested_ip);
        put_size(area, at, &self.max_size)
    }

    #[tactic(auto, unfolding(crate::specs::Written::name_bytes))]
    fn put_names(&self, area: &mut [u8], at: usize) -> usize
        requires fits { Fits self.now }
        requires room { at + length (name_bytes self.now) ≤ length area.old }
        ensures { Extends area.old at area.new result (name_bytes self.now) }
    {
        let at = put_address(
            area,
            at,
            field::OPT_SERVER_IDENTIFIER,
            &self.server_identifier,
        );
        let at = put_inside(area, at, field::OPT_HOST_NAME, self.host_name);
        put_inside(
            area,
            at,
            field::OPT_PARAMETER_REQUEST_LIST,
            self.parameter_request_list,
        )
    }

    #[tactic(auto, unfolding(crate::specs::Written::time_bytes))]
    fn put_times(&self, area: &mut [u8], at: usize) -> usize
        requires { at + length (time_bytes self.now) ≤ length area.old }
        ensures { Extends area.old at area.new result (time_bytes self.now) }
    {
        let at = put_number(area, at, field::OPT_IP_LEASE_TIME, &self.lease_duration);
        let at = put_number(
            area,
            at,
            field::OPT_RENEWAL_TIME_VALUE,
            &self.renew_duration,
        );
        put_number(
            area,
            at,
            field::OPT_REBINDING_TIME_VALUE,
            &self.rebind_duration,
        )
    }

    #[tactic(auto, unfolding(crate::specs::Written::network_bytes))]
    fn put_network(&self, area: &mut [u8], at: usize) -> usize
        requires { at + length (network_bytes self.now) ≤ length area.old }
        ensures { Extends area.old at area.new result (network_bytes self.now) }
    {
        let at = put_address(area, at, field::OPT_SUBNET_MASK, &self.subnet_mask);
        let at = put_address(area, at, field::OPT_ROUTER, &self.router);
        put_servers(area, at, &self.dns_servers)
    }
}

/// Writes zeros for what isn't used.
#[tactic(auto, unfolding(crate::specs::Written::unused))]
fn put_unused(bytes: &mut [u8])
    requires { length bytes.old ≡ 202 }
    ensures { bytes.new ≡ unused }
{
    bytes.fill(0);
}

/// The byte of the broadcast flag.
fn flag_byte(broadcast: bool) -> u8
    ensures { result ≡ flag_byte broadcast }
{
    if broadcast { 0x80 } else { 0 }
}

/// Whether the length field of an option can count what is inside.
fn fits_inside(inside: Option<&[u8]>) -> bool
    ensures { IsTrue result ↔ FitsInside (seen inside.entry) }
{
    match inside {
        None => true,
        Some(inside) => inside.len() < 256,
    }
}

/// An IPv4 address has four bytes.
fn has_four_bytes(address: Ipv4Address)
    ensures { length address.0 ≡ 4 }
{}

/// An Ethernet address has six bytes.
fn has_six_bytes(hardware_addr: EthernetAddress)
    ensures { length hardware_addr.0 ≡ 6 }
{}

/// How many bytes the option of a hardware address takes.
fn hardware_addr_len(hardware_addr: &Option<EthernetAddress>) -> usize
    ensures exact { (kind : ℕ) → result ≡ length (inside_bytes kind (hardware_addr_inside hardware_addr.now)) }
    ensures small { result ≤ 9 }
{
    match hardware_addr {
        None => 0,
        Some(hardware_addr) => {
            has_six_bytes(*hardware_addr);
            9
        }
    }
}

/// How many bytes the option of a number of two bytes takes.
fn size_len(number: &Option<u16>) -> usize
    ensures exact { (kind : ℕ) → result ≡ length (inside_bytes kind (number16_inside number.now)) }
    ensures small { result ≤ 4 }
{
    if number.is_some() { 4 } else { 0 }
}

/// How many bytes the option of an address takes.
fn address_len(address: &Option<Ipv4Address>) -> usize
    ensures exact { (kind : ℕ) → result ≡ length (inside_bytes kind (address_inside address.now)) }
    ensures small { result ≤ 6 }
{
    match address {
        None => 0,
        Some(address) => {
            has_four_bytes(*address);
            6
        }
    }
}

/// How many bytes the option of a number of four bytes takes.
fn number_len(number: &Option<u32>) -> usize
    ensures exact { (kind : ℕ) → result ≡ length (inside_bytes kind (number32_inside number.now)) }
    ensures small { result ≤ 6 }
{
    if number.is_some() { 6 } else { 0 }
}

/// How many bytes an option takes.
fn inside_len(inside: Option<&[u8]>) -> usize
    requires { FitsInside (seen inside) }
    ensures exact { (kind : ℕ) → result ≡ length (inside_bytes kind (seen inside.entry)) }
    ensures small { result ≤ 257 }
{
    match inside {
        None => 0,
        Some(inside) => 2 + inside.len(),
    }
}

/// How many bytes addresses take.
fn addresses_len(addresses: &[Option<Ipv4Address>]) -> usize
    requires { length addresses.now ≤ 3 }
    ensures exact { result ≡ length (addresses_bytes addresses.now) }
    ensures small { result ≤ 4 * length addresses.now }
{
    match addresses.split_first() {
        None => 0,
        Some((None, rest)) => addresses_len(rest),
        Some((Some(address), rest)) => {
            has_four_bytes(*address);
            4 + addresses_len(rest)
        }
    }
}

/// How many bytes the option of servers takes.
fn servers_len(servers: &[Option<Ipv4Address>; MAX_DNS_SERVER_COUNT]) -> usize
    ensures exact { (kind : ℕ) → result ≡ length (inside_bytes kind (addresses_inside (addresses_bytes servers.now))) }
    ensures small { result ≤ 14 }
{
    let length = addresses_len(servers);
    if length == 0 { 0 } else { 2 + length }
}

/// Writes an option at an offset. Answers where it ends.
fn put_option(area: &mut [u8], at: usize, kind: u8, inside: &[u8]) -> usize
    requires fits { length inside.now < 256 }
    requires room { at + (2 + length inside.now) ≤ length area.old }
    ensures { Extends area.old at area.new result (inside_bytes kind (Some inside.now)) }
{
    let (_done, rest) = area.split_at_mut(at);
    let (head, rest) = rest.split_at_mut(2);
    head.copy_from_slice(&[kind, inside.len() as u8]);
    let (body, _rest) = rest.split_at_mut(inside.len());
    body.copy_from_slice(inside);
    at + 2 + inside.len()
}

/// Writes bytes at an offset. Answers where they end.
fn put_bytes(area: &mut [u8], at: usize, bytes: &[u8]) -> usize
    requires { at + length bytes.now ≤ length area.old }
    ensures { Extends area.old at area.new result bytes.now }
{
    let (_done, rest) = area.split_at_mut(at);
    let (body, _rest) = rest.split_at_mut(bytes.len());
    body.copy_from_slice(bytes);
    at + bytes.len()
}

fn put_inside(area: &mut [u8], at: usize, kind: u8, inside: Option<&[u8]>) -> usize
    requires fits { FitsInside (seen inside) }
    requires room { at + length (inside_bytes kind (seen inside)) ≤ length area.old }
    ensures { Extends area.old at area.new result (inside_bytes kind (seen inside.entry)) }
{
    match inside {
        Some(inside) => put_option(area, at, kind, inside),
        None => at,
    }
}

fn put_address(area: &mut [u8], at: usize, kind: u8, address: &Option<Ipv4Address>) -> usize
    requires { at + length (inside_bytes kind (address_inside address.now)) ≤ length area.old }
    ensures { Extends area.old at area.new result
        (inside_bytes kind (address_inside address.now)) }
{
    match address {
        Some(address) => put_option(area, at, kind, &address.0),
        None => at,
    }
}

fn put_number(area: &mut [u8], at: usize, kind: u8, number: &Option<u32>) -> usize
    requires { at + length (inside_bytes kind (number32_inside number.now)) ≤ length area.old }
    ensures { Extends area.old at area.new result
        (inside_bytes kind (number32_inside number.now)) }
{
    match number {
        Some(number) => put_option(area, at, kind, &number.to_be_bytes()),
        None => at,
    }
}

fn put_size(area: &mut [u8], at: usize, size: &Option<u16>) -> usize
    requires { at + length (inside_bytes 57 (number16_inside size.now)) ≤ length area.old }
    ensures { Extends area.old at area.new result (inside_bytes 57 (number16_inside size.now)) }
{
    match size {
        Some(size) => put_option(
            area,
            at,
            field::OPT_MAX_DHCP_MESSAGE_SIZE,
            &size.to_be_bytes(),
        ),
        None => at,
    }
}

fn put_hardware_addr(area: &mut [u8], at: usize, hardware_addr: &Option<EthernetAddress>) -> usize
    requires { at + length (inside_bytes 61 (hardware_addr_inside hardware_addr.now)) ≤ length area.old }
    ensures { Extends area.old at area.new result (inside_bytes 61 (hardware_addr_inside hardware_addr.now)) }
{
    match hardware_addr {
        Some(hardware_addr) => {
            let [a, b, c, d, e, f] = hardware_addr.0;
            put_option(area, at, field::OPT_CLIENT_ID, &[1, a, b, c, d, e, f])
        }
        None => at,
    }
}

/// Writes the addresses that are there over the whole of `body`.
fn put_addresses(body: &mut [u8], addresses: &[Option<Ipv4Address>])
    requires { length body.old ≡ length (addresses_bytes addresses.now) }
    ensures { body.new ≡ addresses_bytes addresses.now }
{
    match addresses.split_first() {
        None => (),
        Some((None, rest)) => put_addresses(body, rest),
        Some((Some(address), rest)) => {
            has_four_bytes(*address);
            let (first, following) = body.split_at_mut(4);
            first.copy_from_slice(&address.0);
            put_addresses(following, rest);
        }
    }
}

fn put_servers(
    area: &mut [u8],
    at: usize,
    servers: &[Option<Ipv4Address>; MAX_DNS_SERVER_COUNT],
) -> usize
    requires { at + length (inside_bytes 6 (addresses_inside (addresses_bytes servers.now))) ≤ length area.old }
    ensures { Extends area.old at area.new result
        (inside_bytes 6 (addresses_inside (addresses_bytes servers.now))) }
{
    let length = addresses_len(servers);
    if length == 0 {
        return at;
    }
    let mut inside = [0; 4 * MAX_DNS_SERVER_COUNT];
    let (used, _rest) = inside.split_at_mut(length);
    put_addresses(used, servers);
    put_option(area, at, field::OPT_DOMAIN_NAME_SERVER, used)
}

/// Ends the options at an offset, and fills what is left with zeros.
fn put_end(area: &mut [u8], at: usize)
    requires { at < length area.old }
    ensures { area.new ≡ take at area.old ++ (255 ∷ replicate (length area.old - (at + 1)) 0) }
{
    let (_options, rest) = area.split_at_mut(at);
    let (end, zeros) = rest.split_at_mut(1);
    end.copy_from_slice(&[field::OPT_END]);
    zeros.fill(field::OPT_PAD);
}
