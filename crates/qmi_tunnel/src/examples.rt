//! Worked examples, byte for byte.

ghost use Rattle.qmi_tunnel.specs.Examples.{BuffersAreUnwrapped, MessagesAreWrapped};

/// A request for the versions of the services, in a command.
pub fn messages_are_wrapped()
    ensures { MessagesAreWrapped }
{}

/// One message, none, a part of one, one and more, and what begins none.
pub fn buffers_are_unwrapped()
    ensures { BuffersAreUnwrapped }
{}
