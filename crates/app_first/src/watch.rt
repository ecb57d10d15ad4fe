//! What is seen of the frames on the wire: `--trace` writes a line of text for each, and `--pcap FILE` a capture for Wireshark.
use crate::host::Host;
use crate::tap::{lines, records};
use anyhow::{Result, bail};
use std::alloc::Global;
use std::io::Write;
use std::rt::Files;
use std::{fs, str};

/// How many bytes of each wait at most until they are written.
const ROOM: usize = 65_536;

/// How many bytes a capture has before its records.
const HEADER: usize = 24;

/// What the arguments ask for.
#[derive(Drop)]
pub struct Watch<F> {
    traces: bool,
    capture: Option<F>,
    /// How many bytes of the capture aren't written.
    skipped: usize,
}

impl<F: Write + Drop> Watch<F> {
    /// What these arguments ask for. The file is made anew.
    pub fn new<R: Files<File = F>>(rt: &R, arguments: &[String]) -> Result<Watch<F>> {
        let mut watch = Watch {
            traces: false,
            capture: None,
            skipped: 0,
        };
        let mut names_file = false;
        for word in arguments.iter() {
            match word.as_str() {
                name if names_file => {
                    watch.capture = Some(fs::create(rt, name)?);
                    names_file = false;
                }
                "--trace" => watch.traces = true,
                "--pcap" => names_file = true,
                _ => bail!("app_first [--trace] [--pcap FILE]"),
            }
        }
        if names_file {
            bail!("--pcap FILE");
        }
        Ok(watch)
    }

    /// How much room a host needs for what is asked for.
    pub fn room(&self) -> usize {
        if self.traces || self.capture.is_some() {
            ROOM
        } else {
            0
        }
    }

    /// Writes what went over the wire of this host since the last call.
    pub fn show<R: Print>(&mut self, rt: &R, alloc: Global, host: &mut Host) -> Result<()> {
        if self.traces {
            let lines = lines(alloc, &mut host.wire)?;
            print!(rt; "{}", str::from_utf8(lines.as_slice())?)?;
        }
        let records = records(alloc, &mut host.wire)?;
        self.write(records.as_slice())
    }

    /// From here on another wire is watched: its capture begins with a header, too, and a file has one.
    pub fn begin_next(&mut self) {
        self.skipped = HEADER;
    }

    /// Writes a part of the capture.
    fn write(&mut self, records: &[u8]) -> Result<()> {
        let skipped = self.skipped.min(records.len());
        self.skipped -= skipped;
        if let Some(file) = &mut self.capture {
            file.write_all(&records[skipped..])?;
        }
        Ok(())
    }
}
