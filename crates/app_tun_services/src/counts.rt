//! What a host counts, as text.
ghost use Rattle.std.specs.Prelude.{◌≡◌};
ghost use Rattle.app_tun_services.specs.Counts.{line_said, faults_said, frames_said, served_said, counts_said};

use itoa::Buffer;
use sockets::tcp;

/// How many characters a number takes, with the spaces before it.
const NUMBER_LEN: usize = 20;

const SPACES: [u8; NUMBER_LEN] = [b' '; NUMBER_LEN];

/// What a host counts, each to the largest number of 64 bits.
#[derive(Clone, Copy, Debug, PartialEq, Eq)]
pub struct Counts {
    /// Frames that came.
    pub received: u64,
    /// Of them those that were longer than the link takes, which were dropped.
    pub too_long: u64,
    /// Of them those that were neither IP nor ARP.
    pub unknown: u64,
    /// Of them those with a header that is damaged.
    pub header: u64,
    /// Of them those with a checksum that is wrong after the header.
    pub checksum: u64,
    /// Of them those with a TCP segment that is a reset.
    pub resets_received: u64,
    /// Frames that went.
    pub sent: u64,
    /// Of them those with a TCP segment that is a reset.
    pub resets_sent: u64,
    /// Frames that the device refused, for lack of memory.
    pub refused: u64,
    /// Connections of the echo that were accepted.
    pub streams: u64,
    /// Connections of the page that were accepted.
    pub pages: u64,
    /// Requests that were answered with 200.
    pub answered: u64,
    /// Requests that were answered with something else.
    pub declined: u64,
}

impl Counts {
    /// Nothing was counted.
    pub const NONE: Counts = Counts {
        received: 0,
        too_long: 0,
        unknown: 0,
        header: 0,
        checksum: 0,
        resets_received: 0,
        sent: 0,
        resets_sent: 0,
        refused: 0,
        streams: 0,
        pages: 0,
        answered: 0,
        declined: 0,
    };
}

/// Queues a line: a number at the right of twenty slots, and what it counts.
#[tactic(auto, unfolding(crate::specs::Counts::line_said))]
fn say_line(socket: &mut tcp::Socket, number: u64, label: &[u8])
    ensures { socket.new ≡ line_said number label.now socket.old }
{
    let mut buffer = Buffer::new();
    let payload = buffer.format(number).as_bytes();
    let blank = NUMBER_LEN.saturating_sub(payload.len());
    let _ = socket.send_slice(&SPACES[..blank]);
    let _ = socket.send_slice(payload);
    let _ = socket.send_slice(label);
}

#[tactic(auto, unfolding(crate::specs::Counts::faults_said))]
fn say_faults(socket: &mut tcp::Socket, counts: &Counts)
    ensures { socket.new ≡ faults_said counts.now socket.old }
{
    say_line(
        socket,
        counts.too_long,
        b" of them too long for the link, dropped\n",
    );
    say_line(
        socket,
        counts.unknown,
        b" of them neither IP nor ARP, dropped\n",
    );
    say_line(
        socket,
        counts.header,
        b" of them with a damaged header, dropped\n",
    );
    say_line(
        socket,
        counts.checksum,
        b" of them with a wrong checksum, dropped\n",
    );
}

#[tactic(auto, unfolding(crate::specs::Counts::frames_said))]
fn say_frames(socket: &mut tcp::Socket, counts: &Counts)
    ensures { socket.new ≡ frames_said counts.now socket.old }
{
    say_line(socket, counts.received, b" frames received\n");
    say_faults(socket, counts);
    say_line(socket, counts.resets_received, b" of them resets\n");
    say_line(socket, counts.sent, b" frames sent\n");
    say_line(socket, counts.resets_sent, b" of them resets\n");
    say_line(socket, counts.refused, b" frames refused by the device\n");
}

#[tactic(auto, unfolding(crate::specs::Counts::served_said))]
fn say_served(socket: &mut tcp::Socket, counts: &Counts)
    ensures { socket.new ≡ served_said counts.now socket.old }
{
    say_line(socket, counts.streams, b" streams accepted\n");
    say_line(socket, counts.pages, b" connections of the page accepted\n");
    say_line(socket, counts.answered, b" requests answered\n");
    say_line(socket, counts.declined, b" requests declined\n");
}

/// Queues the text: 599 bytes.
pub fn say_counts(socket: &mut tcp::Socket, counts: &Counts)
    ensures { socket.new ≡ counts_said counts.now socket.old }
{
    say_frames(socket, counts);
    say_served(socket, counts);
}
