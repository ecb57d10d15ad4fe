/// What a socket answers when it is asked for a packet. `changed` says whether its state or a queue
/// changed.
#[derive(Clone, Copy, Debug, PartialEq, Eq)]
pub enum Offer {
    /// There is a packet: `offered` lends it until `settle` says what became of it.
    Packet { changed: bool },
    /// There is none.
    Silent { changed: bool },
}
