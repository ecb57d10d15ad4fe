//! The laws of the formats, as a user of `ip_wire` calls them.
use ip_wire::{
    IpEndpoint, address_laws, arp_laws, checksum, ethernet_laws, ip_laws, ipv4_laws,
    ipv6_fragment_laws, ipv6_laws, tcp_laws, text, udp_laws,
};

#[test]
fn of_links_checksums_and_texts(_rt: HostRuntime) {
    ethernet_laws::ethernet_equal();
    ethernet_laws::ethernet_fields();
    ethernet_laws::ethernet_fits();
    ethernet_laws::ethernet_no_longer();
    ethernet_laws::ethernet_normal();
    ethernet_laws::ethernet_normal_again();
    ethernet_laws::ethernet_reads_back();
    ethernet_laws::ethernet_spelled();
    ethernet_laws::ethernet_written_fields_are_read();
    arp_laws::arp_equal();
    arp_laws::arp_fields();
    arp_laws::arp_fits();
    arp_laws::arp_no_longer();
    arp_laws::arp_normal();
    arp_laws::arp_normal_again();
    arp_laws::arp_reads_back();
    arp_laws::arp_spelled();
    arp_laws::arp_written_fields_are_read();
    checksum::joined();
    checksum::covered_combines();
    checksum::holds_at_all_ones();
    checksum::complement_holds();
    checksum::changed_word_fails();
    text::printed_reads_back();
    text::one_reading();
    address_laws::number_reads_back();
    address_laws::is_total_order::<IpEndpoint>();
}

#[test]
fn of_ipv4(_rt: HostRuntime) {
    ipv4_laws::ipv4_equal();
    ipv4_laws::ipv4_fields();
    ipv4_laws::ipv4_fits();
    ipv4_laws::ipv4_key();
    ipv4_laws::ipv4_no_longer();
    ipv4_laws::ipv4_normal();
    ipv4_laws::ipv4_normal_again();
    ipv4_laws::ipv4_fragment_reads_back();
    ipv4_laws::ipv4_quoted();
    ipv4_laws::ipv4_quoted_fits();
    ipv4_laws::ipv4_quoted_no_longer();
    ipv4_laws::ipv4_quoted_reads_back();
    ipv4_laws::ipv4_quoted_spelled();
    ipv4_laws::ipv4_reads_back();
    ipv4_laws::ipv4_spelled();
    ipv4_laws::ipv4_written_fields_are_read();
}

#[test]
fn of_ipv6(_rt: HostRuntime) {
    ipv6_laws::ipv6_equal();
    ipv6_laws::ipv6_fields();
    ipv6_laws::ipv6_fits();
    ipv6_laws::ipv6_no_longer();
    ipv6_laws::ipv6_normal();
    ipv6_laws::ipv6_normal_again();
    ipv6_laws::ipv6_quoted();
    ipv6_laws::ipv6_quoted_fits();
    ipv6_laws::ipv6_quoted_no_longer();
    ipv6_laws::ipv6_quoted_reads_back();
    ipv6_laws::ipv6_quoted_spelled();
    ipv6_laws::ipv6_reads_back();
    ipv6_laws::ipv6_spelled();
    ipv6_laws::ipv6_written_fields_are_read();
    ipv6_fragment_laws::ipv6_fragment_equal();
    ipv6_fragment_laws::ipv6_fragment_fields();
    ipv6_fragment_laws::ipv6_fragment_fits();
    ipv6_fragment_laws::ipv6_fragment_no_longer();
    ipv6_fragment_laws::ipv6_fragment_normal();
    ipv6_fragment_laws::ipv6_fragment_normal_again();
    ipv6_fragment_laws::ipv6_fragment_reads_back();
    ipv6_fragment_laws::ipv6_fragment_spelled();
    ipv6_fragment_laws::ipv6_fragment_written_fields_are_read();
    ip_laws::ip_equal();
    ip_laws::ip_fits();
    ip_laws::ip_no_longer();
    ip_laws::ip_normal();
    ip_laws::ip_normal_again();
    ip_laws::ip_reads_back();
}

#[test]
fn of_datagrams_and_segments(_rt: HostRuntime) {
    udp_laws::udp_equal();
    udp_laws::udp_fields();
    udp_laws::udp_fits();
    udp_laws::udp_no_longer();
    udp_laws::udp_reads_back();
    udp_laws::udp_spelled();
    tcp_laws::option_reads_back();
    tcp_laws::option_spelled();
    tcp_laws::tcp_borrowed_equal();
    tcp_laws::tcp_damaged();
    tcp_laws::tcp_equal();
    tcp_laws::tcp_fields();
    tcp_laws::tcp_flags();
    tcp_laws::tcp_no_longer();
    tcp_laws::tcp_normal();
    tcp_laws::tcp_normal_keeps();
    tcp_laws::tcp_one_value();
    tcp_laws::tcp_option_kinds();
    tcp_laws::tcp_reads_back();
    tcp_laws::tcp_spelled();
    tcp_laws::tcp_told_apart();
    tcp_laws::tcp_written_again();
    tcp_laws::tcp_written_flags_are_read();
}
