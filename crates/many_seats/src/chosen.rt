use kit_bytes::ConnId;

/// What a client chose: a device, counted from 0, at which it has this name.
#[derive(Clone, Copy, PartialEq, Eq)]
pub struct Chosen {
    pub device: usize,
    pub name: ConnId,
}
