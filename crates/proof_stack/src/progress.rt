//! A host goes on: no poll is for nothing, and what is queued goes.

pub mod arrivals;
pub mod at_once;
pub mod datagrams;
pub mod delivered;
pub mod edges;
pub mod events;
pub mod excluded;
pub mod fragments;
pub mod inboxes;
pub mod known_hops;
pub mod met;
pub mod neighbors;
pub mod peer_sides;
pub mod polls;
pub mod reach;
pub mod ready;
pub mod received;
pub mod resolution;
pub mod rest;
pub mod rooms;
pub mod segments;
pub mod served;
pub mod settled;
pub mod settling;
pub mod spans;
pub mod unread;
