// The lengths and numbers of a packet.
//
//     | SPI, 4 | number, 4 | segment | padding | pad length, 1 | next header, 1 | tag, 12 |

// SPI and number.
pub const HEAD: usize = 8;

pub const SHORTEST_SEGMENT: usize = 8;

pub const LONGEST_SEGMENT: usize = 1400;

pub const TAG_LEN: usize = 12;

// Pad length, next header and tag.
pub const TAIL: usize = 14;

pub const SHORTEST_PACKET: usize = 32;

pub const LONGEST_PACKET: usize = 1424;

// The protocol number of UDP.
pub const UDP: u8 = 17;
