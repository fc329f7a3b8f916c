//! The bytes that a header is told by (DDCMP 4.1, message formats).

/// SOH, ENQ and DLE, by which data, control and maintenance messages start.
pub(crate) const SOH: u8 = 0x81;

pub(crate) const ENQ: u8 = 0x05;

pub(crate) const DLE: u8 = 0x90;

/// TYPE of each control message.
pub(crate) const ACK: u8 = 1;

pub(crate) const NAK: u8 = 2;

pub(crate) const REP: u8 = 3;

pub(crate) const STRT: u8 = 6;

pub(crate) const STACK: u8 = 7;

/// ADDR: the other station of a line that has two.
pub(crate) const ADDRESS: u8 = 1;

/// Six bytes and their check.
pub(crate) const HEADER_LEN: usize = 8;

pub(crate) const CHECK_LEN: usize = 2;
