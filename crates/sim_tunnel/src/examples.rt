//! Worked examples, byte for byte.

ghost use Rattle.sim_tunnel.specs.Examples.{RequestsAreCarried};

/// A request that is carried, one before OPEN, one that isn't whole, and a query.
pub fn requests_are_carried()
    ensures { RequestsAreCarried }
{}
