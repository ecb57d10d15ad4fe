//! Tests of addresses and packet formats, as a user of `ip_wire` sees them.

mod addresses;
mod blocks;
mod checksums;
mod facade;
mod hardware;
mod ip;
mod ipv4;
mod ipv6;
mod ipv6_fragment;
mod laws;
mod link;
mod long_payloads;
mod names;
mod numbers;
mod samples;
mod tcp_options;
mod tcp_segments;
mod tcp_views;
mod texts;
mod udp;
