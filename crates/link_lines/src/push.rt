ghost use Rattle.std.specs.Prelude.{◌≡◌, ◌++◌, [], List, Some, map, OnOk};
ghost use Rattle.std.specs.List.{flat_map};
ghost use Rattle.kit_io.specs.Record.{Noted};
ghost use Rattle.message_tables.specs.View.{messages_in};
ghost use Rattle.message_tables.specs.WellMade.{AreSound};
ghost use Rattle.watched_link.specs.declared.note.LinkNote.{LinkNote};
ghost use Rattle.watched_link.specs.Notes.{event_of};
ghost use Rattle.link_lines.specs.Directions.{AreShort};
ghost use Rattle.link_lines.specs.Lines.{lines_of, parts_from, text_of};

use crate::shower::{MbimShower, QmiShower, Shower};
use crate::streams::{begin, tell};
use kit_bytes::{Kind, Octets};
use message_tables::Tables;
use std::alloc::{AllocError, Global};
use watched_link::Notes;

/// Adds the lines that tell what went over a link, by what was noted of it. Behind those of notes that
/// aren't whole stands a line `..`.
pub fn push_lines(
    alloc: Global,
    kind: Kind,
    tables: &Tables,
    notes: &Notes,
    text: &mut Octets,
) -> Result<(), AllocError>
    requires { AreSound (messages_in tables.now) }
    ensures { OnOk result ((all : List (Noted LinkNote)) → notes.now.recorded ≡ Some all → AreShort (map event_of all)
        → text.new ≡ text.old ++ lines_of kind (messages_in tables.now) (map event_of all)) }
{
    match kind {
        Kind::Qmi => push_by(alloc, &QmiShower { tables }, notes, text)?,
        Kind::Mbim => push_by(alloc, &MbimShower, notes, text)?,
    }
    if !notes.is_whole() {
        text.extend_from_slice(b"..\n")?;
    }
    Ok(())
}

// The same of those that are told, where messages are shown like this.
fn push_by<S: Shower>(
    alloc: Global,
    shower: &S,
    notes: &Notes,
    text: &mut Octets,
) -> Result<(), AllocError>
    requires { S.serves shower.now }
    ensures { OnOk result ((all : List (Noted LinkNote)) → notes.now.recorded ≡ Some all → AreShort (map event_of all)
        → text.new ≡ text.old ++ flat_map text_of (parts_from S.Lines.Frames.size (S.shown shower.now) [] [] [] (map event_of all))) }
{
    let mut streams = begin(alloc, shower, b"")?;
    for index in 0..notes.len() {
        let Some((note, bytes)) = notes.at(index) else {
            return Ok(());
        };
        tell(alloc, shower, &mut streams, note, bytes, text)?;
    }
    Ok(())
}
