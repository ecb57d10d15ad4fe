//! What a segment does to the connection alongside carrying bytes.
ghost use Rattle.std.specs.Prelude.{◌≡◌};
ghost use Rattle.wire_tcp.specs.Control.{control_len, without_psh, control_of, control_bits};

/// The flag of a segment that counts alongside ACK. No segment has two of SYN, FIN and RST.
#[derive(Clone, Copy, Debug, PartialEq, Eq)]
pub enum TcpControl {
    None,
    Psh,
    Syn,
    Fin,
    Rst,
}

impl TcpControl {
    /// How many sequence numbers the flag takes.
    pub const fn len(self) -> usize
        ensures { result ≡ control_len self }
    {
        match self {
            TcpControl::Syn | TcpControl::Fin => 1,
            TcpControl::None | TcpControl::Psh | TcpControl::Rst => 0,
        }
    }

    /// The same without the push flag.
    pub const fn quash_psh(self) -> TcpControl
        ensures { result ≡ without_psh self }
    {
        match self {
            TcpControl::Psh => TcpControl::None,
            other => other,
        }
    }

    /// The bits of the flag in the byte of the flags.
    pub(crate) const fn bits(self) -> u8
        ensures { result ≡ control_bits self }
    {
        match self {
            TcpControl::None => 0x00,
            TcpControl::Psh => 0x08,
            TcpControl::Syn => 0x02,
            TcpControl::Fin => 0x01,
            TcpControl::Rst => 0x04,
        }
    }

    /// What these flags say; nothing for two of SYN, FIN and RST.
    pub(crate) const fn from_flags(syn: bool, fin: bool, rst: bool, psh: bool) -> Option<TcpControl>
        ensures { result ≡ control_of syn fin rst psh }
    {
        match (syn, fin, rst, psh) {
            (false, false, false, false) => Some(TcpControl::None),
            (false, false, false, true) => Some(TcpControl::Psh),
            (true, false, false, _) => Some(TcpControl::Syn),
            (false, true, false, _) => Some(TcpControl::Fin),
            (false, false, true, _) => Some(TcpControl::Rst),
            _ => None,
        }
    }
}
