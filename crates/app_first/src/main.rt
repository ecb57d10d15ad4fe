//! A first application: two hosts on a wire. One echoes, the other sends it a datagram, a text and a ping. Then a host boots.
//!
//! `--trace` shows the frames as they go over the wire, and `--pcap FILE` writes them as a capture.
#![tactic(auto)]

mod boot;
mod buffers;
mod client;
mod host;
mod net;
mod peer;
mod server;
mod tap;
mod watch;
mod wire;

use anyhow::Result;
use client::{PORT, SERVER};
use net::{End, Net};
use net_base::Duration;
use peer::Peer;
use server::Server;
use std::alloc::Global;
use std::env;
use std::io::Write;
use watch::Watch;

fn main(rt: HostRuntime) -> Result<()> {
    let alloc = rt.alloc();
    let words: Vec<String> = env::args(&rt)?.collect(alloc)?;
    // The first word is the program's name.
    let (_, arguments) = words.as_slice().split_at(words.len().min(1));
    let mut watch = Watch::new(&rt, arguments)?;
    exchange(&rt, alloc, &mut watch)?;
    boot::boot(&rt, alloc, &mut watch)
}

/// The client asks the server for each of its services.
fn exchange<R: Print, F: Write + Drop>(rt: &R, alloc: Global, watch: &mut Watch<F>) -> Result<()> {
    let client = Peer::new(alloc, 1, PORT, watch.room());
    let mut net = Net::new(client, Server::new(alloc, SERVER))?;
    ask_all(rt, alloc, watch, &mut net)
}

fn ask_all<R: Print, F: Write + Drop>(
    rt: &R,
    alloc: Global,
    watch: &mut Watch<F>,
    net: &mut Net<Peer, Server>,
) -> Result<()> {
    ask(rt, alloc, watch, net)?;
    talk(rt, alloc, watch, net)?;
    ping(rt, alloc, watch, net)
}

/// A second passes, and what went over the wire meanwhile is shown.
fn pass<R: Print, F: Write + Drop>(
    rt: &R,
    alloc: Global,
    watch: &mut Watch<F>,
    net: &mut Net<Peer, Server>,
) -> Result<()> {
    net.pass(Duration::from_secs(1))?;
    watch.show(rt, alloc, net.client.host())
}

/// The client sends a datagram, and reads what comes back within a second.
fn ask<R: Print, F: Write + Drop>(
    rt: &R,
    alloc: Global,
    watch: &mut Watch<F>,
    net: &mut Net<Peer, Server>,
) -> Result<()> {
    client::send_datagram(&mut net.client, b"hello")?;
    pass(rt, alloc, watch, net)?;
    let (text, sender) = client::read_datagram(alloc, &mut net.client)?;
    println!(rt; "datagram: {text} from {}", sender.endpoint)?;
    Ok(())
}

/// The client connects, writes a text, and reads what comes back.
fn talk<R: Print, F: Write + Drop>(
    rt: &R,
    alloc: Global,
    watch: &mut Watch<F>,
    net: &mut Net<Peer, Server>,
) -> Result<()> {
    client::connect(&mut net.client)?;
    pass(rt, alloc, watch, net)?;
    client::write(&mut net.client, b"to and fro")?;
    pass(rt, alloc, watch, net)?;
    println!(rt; "stream: {}", client::read(alloc, &mut net.client)?)?;
    Ok(())
}

/// The client sends an echo request, and reads the reply.
fn ping<R: Print, F: Write + Drop>(
    rt: &R,
    alloc: Global,
    watch: &mut Watch<F>,
    net: &mut Net<Peer, Server>,
) -> Result<()> {
    client::ping(&mut net.client, 1)?;
    pass(rt, alloc, watch, net)?;
    match client::pong(&mut net.client)? {
        Some(number) => println!(rt; "ping: {number} is answered")?,
        None => println!(rt; "ping: another message")?,
    }
    Ok(())
}
