// Where a REGISTER or a packet comes from.
use association::Address;
use procedure::Service;

#[derive(Clone, Copy, PartialEq, Eq, Debug)]
pub struct Origin {
    // What the proxy is at the call.
    pub service: Service,
    // Whose row it is.
    pub subscriber: u16,
    // The handset's address.
    pub address: Address,
    // The one bit that a call learns of the rest of the table: whether a set has this address and the port that an
    // opening REGISTER offers. A bit and no more, as no subscriber's call may tell of another subscriber.
    pub taken: bool,
}
