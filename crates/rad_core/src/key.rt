use rad_outside::Peer;

/// What a request is known by: its listener's number, its source, and its packet, whatever padding follows that.
#[derive(Clone, Copy, Debug)]
pub(crate) struct Key<'a> {
    pub(crate) listener: u32,
    pub(crate) source: Peer,
    pub(crate) packet: &'a [u8],
}
