//! Tests of sockets, of the interface's parts, of an interface that polls its sockets, and of a host on a link of turns.

mod kinds;
mod parts;
mod polls;
mod tun;
