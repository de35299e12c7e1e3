/// The name of a connection of a client. No two have the same, and names rise in the order of joining.
pub type ConnId = u64;
