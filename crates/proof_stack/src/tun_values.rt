//! The numbers of a host over a reader and a writer.
ghost use Rattle.std.specs.Prelude.{◌≡◌};
ghost use Rattle.app_tun_services.specs.Begins.{slot_count, stream_room};
ghost use Rattle.app_tun_services.specs.Services.{echo_room, most_request, datagram_count};
ghost use Rattle.app_tun_services.specs.Turns.{budget};
ghost use Rattle.app_tun_services.specs.declared.interface_of.TheConstants.{MTU};
ghost use Rattle.app_tun_services.specs.declared.slot.TheConstants.{ECHO_PORT, PAGE_PORT, DATAGRAMS};

use app_tun_services::link::HEAD_LEN;

/// Law: the ports of the services (RFC 862, RFC 1945), the longest packet, how many datagrams wait and are echoed, how many sockets
/// there are, how much each keeps of datagrams and of a stream, how much of a request is looked at, and how many frames a poll takes.
pub fn tun_numbers()
    ensures tsecr { ECHO_PORT ≡ 7 }
    ensures page { PAGE_PORT ≡ 80 }
    ensures longest { MTU ≡ 1500 }
    ensures waiting { DATAGRAMS ≡ 64 }
    ensures echoed { datagram_count ≡ 64 }
    ensures slots { slot_count ≡ 71 }
    ensures room { echo_room ≡ 65536 }
    ensures stream_room { stream_room ≡ 262144 }
    ensures request { most_request ≡ 4096 }
    ensures budget { budget ≡ 64 }
{}

/// Law: before a turn's packet stand its length in two bytes and the instant in eight.
pub fn turn_numbers()
    ensures { HEAD_LEN ≡ 10 }
{}
