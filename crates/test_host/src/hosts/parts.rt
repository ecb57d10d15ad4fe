//! Tests of the interface's parts, by public calls: generic tables and sets, slots of fragments, the mark of one that waits. What scripts can
//! say of one host is data of the program `app_host`.

mod fragmentation;
mod neighbor;
mod prefix_lines;
mod prefixes;
mod routes;
mod slots;
mod socket_meta;
mod socket_set;
