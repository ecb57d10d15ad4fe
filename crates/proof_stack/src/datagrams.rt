//! What datagram sockets are given and answer, by the paths of each kind.
ghost use Rattle.std.specs.Prelude.{◌≡◌, ◌↔◌, IsTrue};
ghost use Rattle.socket_datagram.specs.declared.error.BindError.{BindError};
ghost use Rattle.socket_datagram.specs.declared.error.RecvError.{RecvError};
ghost use Rattle.socket_datagram.specs.declared.error.SendError.{SendError};
ghost use Rattle.socket_datagram.specs.declared.icmp.Endpoint.{Endpoint};
ghost use Rattle.socket_datagram.specs.declared.udp.UdpMetadata.{UdpMetadata};

use sockets::icmp::{
    BindError as IcmpBindError, Endpoint, RecvError as IcmpRecvError, SendError as IcmpSendError,
};
use sockets::laws;
use sockets::raw::{RecvError as RawRecvError, SendError as RawSendError};
use sockets::udp::{
    BindError as UdpBindError, RecvError as UdpRecvError, SendError as UdpSendError, UdpMetadata,
};

/// Law: `==` of what UDP sockets are given and answer says whether it is the same.
pub fn udp_is_equated()
    ensures metadata { (a b : UdpMetadata) → IsTrue (⟦<UdpMetadata as PartialEq>⟧.eq a b) ↔ (a ≡ b) }
    ensures bind { (a b : BindError) → IsTrue (⟦<UdpBindError as PartialEq>⟧.eq a b) ↔ (a ≡ b) }
    ensures send { (a b : SendError) → IsTrue (⟦<UdpSendError as PartialEq>⟧.eq a b) ↔ (a ≡ b) }
    ensures recv { (a b : RecvError) → IsTrue (⟦<UdpRecvError as PartialEq>⟧.eq a b) ↔ (a ≡ b) }
{
    laws::equal();
}

/// Law: the same of ICMP sockets.
pub fn icmp_is_equated()
    ensures endpoints { (a b : Endpoint) → IsTrue (⟦<Endpoint as PartialEq>⟧.eq a b) ↔ (a ≡ b) }
    ensures bind { (a b : BindError) → IsTrue (⟦<IcmpBindError as PartialEq>⟧.eq a b) ↔ (a ≡ b) }
    ensures send { (a b : SendError) → IsTrue (⟦<IcmpSendError as PartialEq>⟧.eq a b) ↔ (a ≡ b) }
    ensures recv { (a b : RecvError) → IsTrue (⟦<IcmpRecvError as PartialEq>⟧.eq a b) ↔ (a ≡ b) }
{
    laws::equal();
}

/// Law: the same of raw sockets, whose one reason not to send is always equal.
pub fn raw_is_equated(one: RawSendError, other: RawSendError) -> bool
    ensures send { IsTrue result }
    ensures recv { (a b : RecvError) → IsTrue (⟦<RawRecvError as PartialEq>⟧.eq a b) ↔ (a ≡ b) }
{
    laws::equal();
    one == other
}
