//! Tests of an interface that polls its sockets, by public calls: hostile frames, a long transfer between two hosts, another device, and
//! lack of memory. What scripts can say of one host is data of the program `app_host`.

mod by_kind;
mod common;
mod hostile;
mod made;
mod replies;
mod resting;
pub mod streams;
mod tables;
mod transfer;
mod wire;
