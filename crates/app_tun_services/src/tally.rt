//! What a host counts alongside its device.
ghost use Rattle.std.specs.Prelude.{◌≡◌, length, map, count_by};
ghost use Rattle.interface.specs.Backlog.Stages.{is_open};
ghost use Rattle.app_tun_services.specs.Tallies.{no_more, tally_with, collected, counts_of, more_waiting, open_count};

use crate::counts::Counts;
use crate::link::Drain;
use crate::site::Session;
use interface::Listener;
use interface::listener::Entry;

/// Connections that were accepted, and requests that were answered, each to the largest number of 64 bits.
#[derive(Clone, Copy, Debug, PartialEq, Eq)]
pub struct Tally {
    pub streams: u64,
    pub pages: u64,
    pub answered: u64,
    pub declined: u64,
}

/// How many connections wait to be accepted.
fn open_count(entries: &[Entry]) -> usize
    ensures { result ≡ open_count entries.now }
{
    entries.iter().filter(|entry| entry.stage.is_open()).count()
}

impl Tally {
    /// Nothing was counted.
    pub const NONE: Tally = Tally {
        streams: 0,
        pages: 0,
        answered: 0,
        declined: 0,
    };

    /// The connections that wait, which are about to be accepted.
    pub fn count_waiting(&mut self, echoes: &Listener, pages: &Listener)
        ensures { self.new ≡ more_waiting echoes.now.entries.items pages.now.entries.items self.old }
    {
        let streams = open_count(echoes.entries.as_slice());
        let connections = open_count(pages.entries.as_slice());
        self.streams = self.streams.saturating_add(streams as u64);
        self.pages = self.pages.saturating_add(connections as u64);
    }

    /// What is said of it, and of the device.
    pub fn counts(&self, device: &Drain) -> Counts
        ensures { result ≡ counts_of device.now self.now }
    {
        let faults = device.faults();
        Counts {
            received: device.received(),
            too_long: device.dropped(),
            unknown: faults.unknown,
            header: faults.header,
            checksum: faults.checksum,
            resets_received: device.resets_received(),
            sent: device.sent(),
            resets_sent: device.resets_sent(),
            refused: device.refused(),
            streams: self.streams,
            pages: self.pages,
            answered: self.answered,
            declined: self.declined,
        }
    }

    /// Takes over what the sessions counted.
    pub fn collect(&mut self, sessions: &mut [Session])
        ensures tally { self.new ≡ collected sessions.old self.old }
        ensures sessions { sessions.new ≡ map no_more sessions.old }
    {
        for i in 0..sessions.len() {
            self.take(&mut sessions[i]);
        }
    }

    fn take(&mut self, session: &mut Session)
        ensures tally { self.new ≡ tally_with self.old session.old }
        ensures session { session.new ≡ no_more session.old }
    {
        self.answered = self.answered.saturating_add(session.answered);
        self.declined = self.declined.saturating_add(session.declined);
        session.answered = 0;
        session.declined = 0;
    }
}
