//! The stack as a static library for C: thin exports over the calls of `c_calls`. `c/zemplovir.h` declares them.
#![tactic(auto)]

mod acts;
mod answers;
mod backlogs;
mod configuring;
mod control;
mod datagrams;
mod frames;
mod handle;
mod lending;
mod loose;
mod packets;
mod stream_settings;
mod streams;
mod tables;
mod trace;
mod types;

pub use backlogs::{
    zv_listener_accept, zv_listener_add, zv_listener_add_keeper, zv_listener_give_back,
    zv_listener_new, zv_listener_remove,
};
pub use configuring::{
    zv_dhcp_new, zv_dhcp_poll, zv_dhcp_poll_at, zv_dhcp_recv, zv_dhcp_send, zv_dhcp_sent,
    zv_dns_ask, zv_dns_new, zv_dns_poll_at, zv_dns_recv, zv_dns_result, zv_dns_send, zv_dns_sent,
};
pub use control::{
    zv_icmp_bind, zv_icmp_bind_tcp, zv_icmp_bind_udp, zv_icmp_new, zv_icmp_recv, zv_icmp_send,
    zv_icmp_set_hop_limit,
};
pub use datagrams::{
    zv_udp_bind, zv_udp_close, zv_udp_new, zv_udp_recv, zv_udp_send, zv_udp_set_hop_limit,
};
pub use frames::{
    zv_counters, zv_frame_in, zv_frame_out, zv_frame_out_length, zv_host_free, zv_host_new,
    zv_poll, zv_poll_at, zv_socket_remove, zv_socket_set_user, zv_socket_user,
};
pub use lending::{
    zv_frame_peek_out, zv_frame_skip_out, zv_frames_reserve, zv_tcp_commit, zv_tcp_reserve,
    zv_tcp_skip,
};
pub use packets::{zv_raw_new, zv_raw_recv, zv_raw_send};
pub use stream_settings::{
    zv_tcp_pause_synack, zv_tcp_set_ack_delay, zv_tcp_set_congestion_control,
    zv_tcp_set_fine_timer, zv_tcp_set_hop_limit, zv_tcp_set_keep_alive, zv_tcp_set_min_rto,
    zv_tcp_set_nagle, zv_tcp_set_retries, zv_tcp_set_timeout, zv_tcp_set_timestamps,
};
pub use streams::{
    zv_tcp_abort, zv_tcp_close, zv_tcp_connect, zv_tcp_done, zv_tcp_end_reason, zv_tcp_listen,
    zv_tcp_new, zv_tcp_peek, zv_tcp_peer, zv_tcp_queues, zv_tcp_recv, zv_tcp_room, zv_tcp_send,
    zv_tcp_state,
};
pub use tables::{
    zv_address_add, zv_address_remove, zv_group_join, zv_group_leave, zv_host_set_any_ip,
    zv_host_set_hardware, zv_host_set_reassembly_slots, zv_host_set_reassembly_timeout,
    zv_host_update_hardware, zv_route_add, zv_route_remove,
};
pub use trace::zv_trace_line;
