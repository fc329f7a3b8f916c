//! How a packet capture begins.

/// Whether these are the first bytes of a packet capture of tcpdump or Wireshark: pcap, of either byte order and with times to a microsecond or a
/// nanosecond, or pcapng.
///
/// ```text
/// is_packet_capture(b"\n\r\r\n") == true
/// is_packet_capture(b"ddwire 1 1.1 1.2\n") == false
/// ```
pub fn is_packet_capture(first: &[u8]) -> bool {
    first.starts_with(b"\xd4\xc3\xb2\xa1")
        || first.starts_with(b"\xa1\xb2\xc3\xd4")
        || first.starts_with(b"\x4d\x3c\xb2\xa1")
        || first.starts_with(b"\xa1\xb2\x3c\x4d")
        || first.starts_with(b"\n\r\r\n")
}
