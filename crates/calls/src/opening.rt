// What an `open` line asks for.

// The algorithms are numbers as a script gives them, wrong ones too: the proxy's rule is that it serves nobody then.
#[derive(Clone, Copy)]
pub struct Opening {
    pub rows: u32,
    // The protected port.
    pub port: u16,
    // The algorithms by number, the preferred first.
    pub first: u8,
    pub second: Option<u8>,
}
