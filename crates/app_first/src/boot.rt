//! A first boot: a host without an address asks for one by DHCP, and for the address of a name by DNS. A server at the other end of
//! the wire answers.
mod client;
mod server;

use crate::net::{End, Net};
use crate::watch::Watch;
use anyhow::Result;
use client::Client;
use net_base::Duration;
use server::Server;
use std::alloc::Global;
use std::fmt::Display;
use std::io::Write;

/// Lets a host boot, and ask for the address of a name.
pub fn boot<R: Print, F: Write + Drop>(rt: &R, alloc: Global, watch: &mut Watch<F>) -> Result<()> {
    watch.begin_next();
    let mut net = Net::new(Client::new(alloc, watch.room()), Server::new(alloc))?;
    ask(rt, alloc, watch, &mut net)
}

fn ask<R: Print, F: Write + Drop>(
    rt: &R,
    alloc: Global,
    watch: &mut Watch<F>,
    net: &mut Net<Client, Server>,
) -> Result<()> {
    net.pass(Duration::from_secs(5))?;
    watch.show(rt, alloc, net.client.host())?;
    show(rt, "after five seconds the host", net.client.address())?;
    net.client.ask("www.example.test")?;
    net.pass(Duration::from_secs(1))?;
    watch.show(rt, alloc, net.client.host())?;
    show(rt, "www.example.test", net.client.found()?)
}

/// Says which address a host has, if it has one.
fn show<R: Print, A: Display + Drop>(rt: &R, host: &str, address: Option<A>) -> Result<()> {
    match address {
        Some(address) => println!(rt; "{host} is {address}")?,
        None => println!(rt; "{host} has no address")?,
    }
    Ok(())
}
