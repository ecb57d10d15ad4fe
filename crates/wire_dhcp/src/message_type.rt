//! The kinds of messages (RFC 2132, section 9.6).
ghost use Rattle.std.specs.Prelude.{◌≡◌, Some, None};
ghost use Rattle.wire_dhcp.specs.MessageType.{type_number, type_of, opcode_of, op_number};

/// What a message is for.
#[derive(Clone, Copy, Debug, PartialEq, Eq)]
pub enum DhcpMessageType {
    Discover,
    Offer,
    Request,
    Decline,
    Ack,
    Nak,
    Release,
    Inform,
}

/// Who speaks.
#[derive(Clone, Copy, Debug, PartialEq, Eq)]
pub enum DhcpOpCode {
    /// The client.
    Request,
    /// The server.
    Reply,
}

impl DhcpOpCode {
    /// The number in the first field of a message.
    pub fn number(self) -> u8
        ensures { result ≡ op_number self }
    {
        match self {
            DhcpOpCode::Request => 1,
            DhcpOpCode::Reply => 2,
        }
    }
}

impl DhcpMessageType {
    /// The type with this number.
    pub fn from_number(number: u8) -> Option<DhcpMessageType>
        ensures { result ≡ type_of number }
    {
        match number {
            1 => Some(DhcpMessageType::Discover),
            2 => Some(DhcpMessageType::Offer),
            3 => Some(DhcpMessageType::Request),
            4 => Some(DhcpMessageType::Decline),
            5 => Some(DhcpMessageType::Ack),
            6 => Some(DhcpMessageType::Nak),
            7 => Some(DhcpMessageType::Release),
            8 => Some(DhcpMessageType::Inform),
            _ => None,
        }
    }

    /// The number of the type.
    pub fn number(self) -> u8
        ensures { result ≡ type_number self }
    {
        match self {
            DhcpMessageType::Discover => 1,
            DhcpMessageType::Offer => 2,
            DhcpMessageType::Request => 3,
            DhcpMessageType::Decline => 4,
            DhcpMessageType::Ack => 5,
            DhcpMessageType::Nak => 6,
            DhcpMessageType::Release => 7,
            DhcpMessageType::Inform => 8,
        }
    }

    /// Who sends messages of the type.
    pub fn opcode(self) -> DhcpOpCode
        ensures { result ≡ opcode_of self }
    {
        match self {
            DhcpMessageType::Offer | DhcpMessageType::Ack | DhcpMessageType::Nak => {
                DhcpOpCode::Reply
            }
            DhcpMessageType::Discover
            | DhcpMessageType::Request
            | DhcpMessageType::Decline
            | DhcpMessageType::Release
            | DhcpMessageType::Inform => DhcpOpCode::Request,
        }
    }
}
