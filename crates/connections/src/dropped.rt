ghost use Rattle.std.specs.Prelude.{◌≡◌, ◌++◌, None, Some};
ghost use Rattle.std.specs.Option.{option_map};
ghost use Rattle.connections.specs.Table.{left_in, left_for};
ghost use Rattle.outbox.specs.Fronts.{IsFrontOf};

use crate::place::Place;
use framing::Framing;
use kit_bytes::ConnId;
use std::marker::Model;

/// A connection that was dropped and is to be hung up, with the bytes that still waited for it.
#[derive(Drop)]
pub struct Dropped<F: Framing, T> {
    name: ConnId,
    // none where it was never let in
    place: Option<Place<F, T>>,
}

impl<F: Framing, T> Model for Dropped<F, T> {
    ghost use Rattle.std.specs.Option.{option_map};
    ghost use Rattle.connections.specs.Table as table;

    ghost Value = { table.Dropped };

    ghost view = { λ d. record { name = d.name; outbox = option_map (λ p. p.outbox) d.place } };
}

impl<F: Framing, T> Dropped<F, T> {
    /// One that wasn't let in.
    pub fn refused(name: ConnId) -> Self
        ensures { result ≡ record { name = name; outbox = None } }
    {
        Dropped { name, place: None }
    }

    pub fn new(name: ConnId, place: Place<F, T>) -> Self
        ensures { result ≡ record { name = name; outbox = Some place.outbox } }
    {
        Dropped {
            name,
            place: Some(place),
        }
    }

    pub fn name(&self) -> ConnId
        ensures { result ≡ self.now.name }
    {
        self.name
    }

    /// The first of the bytes that waited for it; none only where none did.
    pub fn queued(&self) -> &[u8]
        ensures { IsFrontOf result.now (left_in self.now.outbox) }
    {
        match &self.place {
            Some(place) => place.outbox.front(),
            None => &[],
        }
    }

    /// All the bytes that waited for it, in two parts.
    pub fn parts(&self) -> (&[u8], &[u8])
        ensures { result.0.now ++ result.1.now ≡ left_in self.now.outbox }
    {
        match &self.place {
            Some(place) => place.outbox.parts(),
            None => (&[], &[]),
        }
    }

    /// Its place, which is free again.
    pub fn into_place(self) -> Option<Place<F, T>>
        ensures { option_map (λ p. p.outbox) result ≡ self.outbox }
    {
        self.place
    }
}

/// The first of the bytes that waited for the connection of this name, where the list has it; none
/// only where none did.
pub fn queued<F: Framing, T>(list: &[Dropped<F, T>], name: ConnId) -> &[u8]
    ensures { IsFrontOf result.now (left_for name list.now) }
{
    for dropped in list {
        if name == dropped.name() {
            return dropped.queued();
        }
    }
    &[]
}

/// All the bytes that waited for the connection of this name, where the list has it, in two parts.
pub fn parts<F: Framing, T>(list: &[Dropped<F, T>], name: ConnId) -> (&[u8], &[u8])
    ensures { result.0.now ++ result.1.now ≡ left_for name list.now }
{
    for dropped in list {
        if name == dropped.name() {
            return dropped.parts();
        }
    }
    (&[], &[])
}
