//! No error answers an error (RFC 4443, 2.4 e.1), where a host tells of a problem with extension headers.
ghost use Rattle.std.specs.Prelude.{◌≡◌, ℕ, nat_lt, List, [], ◌∷◌, Bool, false, Some};
ghost use Rattle.iface_egress.specs.Inner.{InnerValue};
ghost use Rattle.iface_ingress.specs.Processed.{unread_v6};
ghost use Rattle.ip_wire.specs.Ipv6Repr.{Ipv6Repr};
ghost use Rattle.sockets.specs.Packet.{PacketValue};
ghost use Rattle.wire_address.specs.declared.ip.IpProtocol.TheVariants as Protocol;
ghost use Rattle.wire_ipv6_headers.specs.Headers.{carries_error};
ghost use Rattle.wire_ipv6_headers.specs.declared.headers.Following.{Following};

/// Law: a control message of a type below 128 is an error (RFC 4443, 2.1), right behind the IPv6 header, and behind options, whatever these are.
#[tactic(auto, unfolding(wire_ipv6_headers::specs::Headers::error_within))]
pub fn errors_are_found_behind_options()
    ensures bare { (kind : ℕ) (rest : List ℕ) → carries_error Protocol.Icmpv6 (kind ∷ rest) ≡ nat_lt kind 128 }
    ensures options { (a b c d e f kind : ℕ) (rest : List ℕ)
        → carries_error Protocol.Ipv6Opts (58 ∷ 0 ∷ a ∷ b ∷ c ∷ d ∷ e ∷ f ∷ kind ∷ rest) ≡ nat_lt kind 128 }
{}

/// Law: where the source of a packet is told of a problem with its extension headers, the packet carries no error.
pub fn no_error_answers_an_error()
    ensures { (i : InnerValue) (header : Ipv6Repr) (payload : List ℕ) (taken : Bool) (end : Following) (p : PacketValue)
        → unread_v6 i header payload taken end ≡ Some p → carries_error header.next_header payload ≡ false }
{}
