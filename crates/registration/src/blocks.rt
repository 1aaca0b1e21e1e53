// The blocks of SPIs that the proxy's sets are named by, one for each subscriber.

// The first SPI of the first subscriber's block.
pub const FIRST_BLOCK: u32 = 4096;

// How many SPIs a block has.
pub const BLOCK: u32 = 16;
