// The address of a handset.

// The high and the low 64 bits of an IPv6 address.
pub type Address = (u64, u64);

// What packets from a handset are known by before they are opened: no two subscribers' sets may share it.
#[derive(Clone, Copy, PartialEq, Eq, Debug)]
pub struct Pair {
    pub address: Address,
    // The handset's protected port.
    pub port: u16,
}
