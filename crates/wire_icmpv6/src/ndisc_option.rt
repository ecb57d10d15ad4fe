//! Options of neighbour messages (RFC 4861, section 4.6).
ghost use Rattle.std.specs.Prelude.{◌≡◌, ◌↔◌, ℕ, IsOk, IfOk, Option, Some, None, List, length};
ghost use Rattle.wire_address.specs.Hardware.{raw_bytes};
ghost use Rattle.wire_icmpv6.specs.NdiscOption.{OptionValue, value_of, Begins, HasLink, link_bytes, link_len, link_option};

use wire_address::{Error, RawHardwareAddress};

/// The type of the option that holds the sender's link address.
pub(crate) const SOURCE_LINK_LAYER_ADDR: u8 = 1;
/// The type of the option that holds the target's link address.
pub(crate) const TARGET_LINK_LAYER_ADDR: u8 = 2;

/// How many bytes a unit of an option's length field stands for.
const UNIT: usize = 8;

/// An option: its type, and what is after its length field.
#[derive(Clone, Copy, Debug)]
pub(crate) struct NdiscOption<'a> {
    pub option_type: u8,
    pub bytes: &'a [u8],
}

impl<'a> NdiscOption<'a> {
    /// The option at the front, and the bytes after it.
    pub fn parse(bytes: &'a [u8]) -> Result<(NdiscOption<'a>, &'a [u8]), Error>
        ensures found { IfOk result (λ p. Begins bytes.now (value_of p.0) p.1.now) }
        ensures only { (o : OptionValue) (rest : List ℕ)
            → Begins bytes.now o rest
            → IsOk result × IfOk result (λ p. (value_of p.0 ≡ o) × (p.1.now ≡ rest)) }
    {
        let [option_type, units, ..] = bytes else {
            return Err(Error);
        };
        let length = UNIT * *units as usize;
        if length == 0 || length > bytes.len() {
            return Err(Error);
        }
        let (option, rest) = bytes.split_at(length);
        let option = NdiscOption {
            option_type: *option_type,
            bytes: &option[2..],
        };
        Ok((option, rest))
    }

    /// The link address in an option of such a type: the six bytes of Ethernet.
    fn link_layer_addr(&self) -> Result<RawHardwareAddress, Error>
        ensures found { IfOk result (λ a. raw_bytes a ≡ self.now.bytes.now) }
        ensures only { IsOk result ↔ (length self.now.bytes.now ≡ 6) }
    {
        if self.bytes.len() == 6 {
            Ok(RawHardwareAddress::from_bytes(self.bytes))
        } else {
            Err(Error)
        }
    }
}

/// The link address in the options of this type. Of several the last one counts.
pub(crate) fn parse_link_layer_addr(
    options: &[u8],
    option_type: u8,
) -> Result<Option<RawHardwareAddress>, Error>
    ensures found { IfOk result (λ a. HasLink option_type None options.now (link_bytes a)) }
    ensures only { (link : Option (List ℕ))
        → HasLink option_type None options.now link
        → IsOk result × IfOk result (λ a. link_bytes a ≡ link) }
{
    let mut address = None;
    let mut rest = options;
    while !rest.is_empty() {
        let (option, following) = NdiscOption::parse(rest)?;
        if option.option_type == option_type {
            address = Some(option.link_layer_addr()?);
        }
        rest = following;
    }
    Ok(address)
}

/// The length of the option of a link address.
pub(crate) fn link_layer_addr_len(address: &Option<RawHardwareAddress>) -> usize
    ensures { result ≡ link_len (link_bytes address.now) }
{
    match address {
        None => 0,
        Some(_) => UNIT,
    }
}

/// Writes the option of a link address.
pub(crate) fn emit_link_layer_addr(
    bytes: &mut [u8],
    option_type: u8,
    address: &Option<RawHardwareAddress>,
)
    requires { length bytes.old ≡ link_len (link_bytes address.now) }
    ensures { bytes.new ≡ link_option option_type (link_bytes address.now) }
{
    if let Some(address) = address {
        let (head, body) = bytes.split_at_mut(2);
        head.copy_from_slice(&[option_type, 1]);
        let (front, padding) = body.split_at_mut(address.len());
        front.copy_from_slice(address.as_bytes());
        padding.fill(0);
    }
}
