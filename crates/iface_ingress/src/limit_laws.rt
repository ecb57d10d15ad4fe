//! What the limit on errors and resets leaves as it is.
ghost use Rattle.std.specs.Prelude.{◌≡◌, ℕ, Bool, true, false, List, Option, None, Some};
ghost use Rattle.ip_wire.specs.IpRepr.{IpRepr};
ghost use Rattle.sockets.specs.Packet.{PacketValue, PayloadValue};
ghost use Rattle.iface_egress.specs.Inner.{InnerValue, may_tell, with_error};
ghost use Rattle.iface_ingress.specs.Delivered.{Slots};
ghost use Rattle.iface_ingress.specs.Processed.{is_unclaimed, handed_host, handed_reply, limited_host, limited_reply};

/// Law: the limit stops nothing but what answers a packet that nobody takes, and nothing where one more may go; what it stops changes
/// nothing else, and what goes is counted.
pub fn the_limit_stops_errors_alone()
    ensures claimed { (i : InnerValue) (slots : Slots) (ip : IpRepr) (payload : List ℕ) (taken : Bool) (carried : Option PayloadValue)
        → is_unclaimed i slots ip carried ≡ false
        → (limited_reply i slots ip payload taken carried ≡ handed_reply i slots ip payload taken carried)
        × (limited_host i slots ip payload taken carried ≡ handed_host i slots ip payload carried) }
    ensures goes { (i : InnerValue) (slots : Slots) (ip : IpRepr) (payload : List ℕ) (taken : Bool) (carried : Option PayloadValue)
        → may_tell i ≡ true
        → limited_reply i slots ip payload taken carried ≡ handed_reply i slots ip payload taken carried }
    ensures counts { (i : InnerValue) (slots : Slots) (ip : IpRepr) (payload : List ℕ) (taken : Bool) (carried : Option PayloadValue) (p : PacketValue)
        → is_unclaimed i slots ip carried ≡ true
        → limited_reply i slots ip payload taken carried ≡ Some p
        → limited_host i slots ip payload taken carried ≡ with_error (handed_host i slots ip payload carried) }
    ensures stops { (i : InnerValue) (slots : Slots) (ip : IpRepr) (payload : List ℕ) (taken : Bool) (carried : Option PayloadValue)
        → is_unclaimed i slots ip carried ≡ true
        → may_tell i ≡ false
        → (limited_reply i slots ip payload taken carried ≡ None)
        × (limited_host i slots ip payload taken carried ≡ handed_host i slots ip payload carried) }
{}
