//! What the messages of the client carry alongside its own options.
ghost use Rattle.std.specs.Prelude.{◌≡◌, ◌<◌, ◌≤◌, ◌+◌, ◌-◌, [], ◌∷◌, ◌++◌, OnOk, is_ok, if◌then◌else◌, length};
ghost use Rattle.wire_dhcp.specs.Options.{seen};
ghost use Rattle.wire_dhcp.specs.Written.{encoded};
ghost use Rattle.socket_datagram.specs.DhcpClient.Extras.{AreExtras, asked_inside, asked_len, room, is_reserved, room_following, verdict, list_verdict};

use crate::dhcpv4::error::OptionsError;
use arrayvec::ArrayVec;
use std::marker::Model;
use wire_dhcp::{DhcpOption, field};

/// How many bytes the option of the codes and the further options may take.
const ROOM: usize = 279;
/// How many codes a list may have.
const MOST_CODES: usize = 255;

/// The codes that the client asks for, and further options as they are sent.
#[derive(Debug, Drop)]
pub(crate) struct Extras {
    parameters: ArrayVec<u8, MOST_CODES>,
    options: ArrayVec<u8, ROOM>,
}

impl Model for Extras {
    ghost use Rattle.socket_datagram.specs.DhcpClient.Extras.{ExtrasValue, AreExtras};

    ghost Value = { ExtrasValue };

    ghost view = { λ e. record { parameters = e.parameters.items; options = e.options.items } };

    ghost invariant = { λ e. AreExtras e.parameters.items e.options.items };
}

impl Extras {
    /// The subnet mask, routers and servers of names are asked for, and there are no further options.
    pub(crate) fn new() -> Extras
        ensures { result ≡ record { parameters = 1 ∷ 3 ∷ 6 ∷ []; options = [] } }
    {
        let mut parameters = ArrayVec::new();
        parameters.push(field::OPT_SUBNET_MASK);
        parameters.push(field::OPT_ROUTER);
        parameters.push(field::OPT_DOMAIN_NAME_SERVER);
        Extras {
            parameters,
            options: ArrayVec::new(),
        }
    }

    /// What is inside the option of the codes that the client asks for, if there are any.
    pub(crate) fn parameters(&self) -> Option<&[u8]>
        ensures inside { seen result ≡ asked_inside self.now.parameters }
        ensures extras { AreExtras self.now.parameters self.now.options }
    {
        let codes = self.parameters.as_slice();
        if codes.is_empty() { None } else { Some(codes) }
    }

    /// The bytes of the further options.
    pub(crate) fn options(&self) -> &[u8]
        ensures { result.now ≡ self.now.options }
    {
        self.options.as_slice()
    }

    /// Asks for other codes.
    pub(crate) fn set_parameters(&mut self, codes: &[u8]) -> Result<(), OptionsError>
        ensures verdict { result ≡ list_verdict codes.now (length self.old.options) }
        ensures value { self.new ≡ (if is_ok result then record self.old { parameters = codes.now } else self.old) }
    {
        if codes.len() > MOST_CODES {
            return Err(OptionsError::TooLong);
        }
        if asked_len(codes) + self.options.as_slice().len() > ROOM {
            return Err(OptionsError::NoRoom);
        }
        self.parameters = list_of(codes);
        Ok(())
    }

    /// Takes other options.
    pub(crate) fn set_options(&mut self, options: &[DhcpOption<'_>]) -> Result<(), OptionsError>
        ensures verdict { result ≡ verdict (279 - asked_len self.old.parameters) options.now }
        ensures value { self.new ≡ (if is_ok result then record self.old { options = encoded options.now } else self.old) }
    {
        let room = ROOM - asked_len(self.parameters.as_slice());
        let mut bytes = ArrayVec::new();
        append(&mut bytes, room, options)?;
        self.options = bytes;
        Ok(())
    }
}

/// A list of so many codes.
fn list_of(codes: &[u8]) -> ArrayVec<u8, MOST_CODES>
    requires { length codes.now ≤ 255 }
    ensures { result.items ≡ codes.now }
{
    let mut list = ArrayVec::new();
    let _fits = list.try_extend_from_slice(codes);
    list
}

/// How many bytes the option of these codes takes.
fn asked_len(codes: &[u8]) -> usize
    requires { length codes.now < 256 }
    ensures { result ≡ asked_len codes.now }
{
    if codes.is_empty() { 0 } else { 2 + codes.len() }
}

/// Appends options to bytes that have so much room, up to one that can't go.
fn append(
    bytes: &mut ArrayVec<u8, ROOM>,
    room: usize,
    options: &[DhcpOption<'_>],
) -> Result<(), OptionsError>
    requires { length bytes.old.items + room ≤ 279 }
    ensures verdict { result ≡ verdict room options.now }
    ensures bytes { OnOk result (bytes.new.items ≡ bytes.old.items ++ encoded options.now) }
{
    let Some((option, rest)) = options.split_first() else {
        return Ok(());
    };
    let room = room_following(room, option)?;
    put(bytes, option);
    append(bytes, room, rest)
}

/// The room that an option leaves, or why it can't go.
fn room_following(room: usize, option: &DhcpOption<'_>) -> Result<usize, OptionsError>
    ensures { result ≡ room_following room option.now }
{
    if is_reserved(option.kind) {
        return Err(OptionsError::Reserved);
    }
    if option.data.len() > 255 {
        return Err(OptionsError::TooLong);
    }
    if 2 + option.data.len() > room {
        return Err(OptionsError::NoRoom);
    }
    Ok(room - (2 + option.data.len()))
}

/// Whether the client writes the option of a code itself, or the code is that of no option that may be given.
fn is_reserved(kind: u8) -> bool
    ensures { result ≡ is_reserved kind }
{
    kind == field::OPT_PAD
        || kind == field::OPT_END
        || kind == field::OPT_OPTION_OVERLOAD
        || kind == field::OPT_REQUESTED_IP
        || kind == field::OPT_DHCP_MESSAGE_TYPE
        || kind == field::OPT_SERVER_IDENTIFIER
        || kind == field::OPT_PARAMETER_REQUEST_LIST
        || kind == field::OPT_MAX_DHCP_MESSAGE_SIZE
        || kind == field::OPT_CLIENT_ID
}

/// Appends an option.
fn put(bytes: &mut ArrayVec<u8, ROOM>, option: &DhcpOption<'_>)
    requires short { length option.now.«data».now < 256 }
    requires room { length bytes.old.items + (2 + length option.now.«data».now) ≤ 279 }
    ensures { bytes.new.items ≡ bytes.old.items ++ (option.now.kind ∷ length option.now.«data».now ∷ option.now.«data».now) }
{
    bytes.push(option.kind);
    bytes.push(option.data.len() as u8);
    let _fits = bytes.try_extend_from_slice(option.data);
}
