ghost use Rattle.std.specs.Prelude.{◌≡◌, ◌≤◌, List, Some, map, IfOk, OnOk};
ghost use Rattle.std.specs.Option.{option_copied};
ghost use Rattle.kit_io.specs.Causes.{HasCause, Rose};
ghost use Rattle.kit_io.specs.Growth.{Grows};
ghost use Rattle.kit_io.specs.Record.{Noted};
ghost use Rattle.link_lines.specs.Directions.{AreShort};
ghost use Rattle.link_lines.specs.Lines.{Fault, lines_of, text_of};
ghost use Rattle.qmi_services.specs.BuiltIn.{built_in};
ghost use Rattle.watched_link.specs.declared.note.LinkNote.{LinkNote};
ghost use Rattle.watched_link.specs.Notes.{event_of};
ghost use Rattle.program.specs.Status.{line_of};
ghost use Rattle.program.specs.Watching.{Reports, Tells, kind_if, node_if, node_lines, told_kind, told_node};

use crate::report::report;
use crate::status::Status;
use file_io::Complain;
use kit_bytes::{Kind, Octets, PathText};
use kit_io::{Sink, WriteFault, write_all_to};
use link_lines::push_lines;
use qmi_services::built_in;
use std::alloc::{AllocError, Global};
use tool_words::{LinkSettings, ToolCommand};
use watched_link::{Notes, Watch};

/// The kind of the messages that are told, where the words want that.
pub fn told_kind(command: &ToolCommand) -> Option<Kind>
    ensures { result ≡ told_kind command.now }
{
    match command {
        ToolCommand::Qmicli(task) => kind_if(&task.link),
        ToolCommand::Mbimcli(task) => kind_if(&task.link),
        ToolCommand::Request(task) => kind_if(&task.link),
        _ => None,
    }
}

fn kind_if(link: &LinkSettings) -> Option<Kind>
    ensures { result ≡ kind_if link.now.verbose link.now.kind }
{
    if link.verbose { Some(link.kind) } else { None }
}

/// The node of a pump that is to tell why it failed, where the words want that.
pub fn told_node(alloc: Global, command: &ToolCommand) -> Result<Option<PathText>, AllocError>
    ensures { IfOk result (λ node. node ≡ told_node command.now) }
{
    match command {
        ToolCommand::Pump { node, verbose, .. } => node_if(alloc, *verbose, node),
        _ => Ok(None),
    }
}

fn node_if(alloc: Global, verbose: bool, node: &PathText) -> Result<Option<PathText>, AllocError>
    ensures { IfOk result (λ told. told ≡ node_if verbose node.now) }
{
    if !verbose {
        return Ok(None);
    }
    Ok(Some(node.copy(alloc)?))
}

/// Writes why a node failed that is told of, where its pump ended by that. A fault of the sink changes nothing.
pub fn tell_node<F: Complain, E: Sink>(
    node: Option<&PathText>,
    files: &F,
    status: &Status,
    err: &mut E,
)
    ensures told { ¬ Rose (E.faults err.old) (E.faults err.new) → Grows (E.taken err.old) (node_lines (option_copied node.entry) (F.words files.now) status.now) (E.taken err.new) }
    ensures later { E.faults err.old ≤ E.faults err.new }
{
    if let Some(node) = node
        && matches!(status, Status::ReadFault | Status::WriteFault)
    {
        let path = node.value().as_str().as_bytes();
        let _ = write_fault(path, files.words().as_bytes(), err);
    }
}

// Writes why a call failed on the way to a path.
fn write_fault<E: Sink>(path: &[u8], words: &[u8], err: &mut E) -> Result<(), WriteFault>
    ensures line { OnOk result (Grows (E.taken err.old) (text_of (Fault path.now words.now)) (E.taken err.new)) }
    ensures cause { HasCause (E.faults err.old) (E.faults err.new) result }
{
    write_all_to(err, b"! ")?;
    write_all_to(err, path)?;
    write_all_to(err, b": ")?;
    write_all_to(err, words)?;
    write_all_to(err, b"\n")?;
    Ok(())
}

/// Writes the line of a status, behind the lines of what went over the link where a kind is told. A fault
/// of the sink changes nothing.
pub fn report_behind<L: Watch, E: Sink>(
    alloc: Global,
    kind: Option<Kind>,
    link: &L,
    status: &Status,
    err: &mut E,
)
    ensures line { ¬ Rose (E.faults err.old) (E.faults err.new) → Reports kind (L.notes link.now).recorded (line_of status.now) (E.taken err.old) (E.taken err.new) }
    ensures later { E.faults err.old ≤ E.faults err.new }
{
    let Some(kind) = kind else {
        report(status, err);
        return;
    };
    tell(alloc, kind, link.notes(), err);
    report(status, err);
}

// Writes the lines of what was noted of a link, or that there is no memory for them.
fn tell<E: Sink>(alloc: Global, kind: Kind, notes: &Notes, err: &mut E)
    ensures told { ¬ Rose (E.faults err.old) (E.faults err.new) → Tells kind notes.now.recorded (E.taken err.old) (E.taken err.new) }
    ensures later { E.faults err.old ≤ E.faults err.new }
{
    match lines_of(alloc, kind, notes) {
        Ok(lines) => write(lines.as_slice(), err),
        Err(AllocError) => write(b"! out of memory\n", err),
    }
}

// Writes a text. A fault of the sink changes nothing.
fn write<E: Sink>(text: &[u8], err: &mut E)
    ensures text { ¬ Rose (E.faults err.old) (E.faults err.new) → Grows (E.taken err.old) text.now (E.taken err.new) }
    ensures later { E.faults err.old ≤ E.faults err.new }
{
    let _ = write_all_to(err, text);
}

fn lines_of(alloc: Global, kind: Kind, notes: &Notes) -> Result<Octets, AllocError>
    ensures { IfOk result (λ lines. (all : List (Noted LinkNote)) → notes.now.recorded ≡ Some all → AreShort (map event_of all) → lines ≡ lines_of kind built_in (map event_of all)) }
{
    let tables = built_in(alloc)?;
    let mut lines = Octets::new(alloc);
    push_lines(alloc, kind, &tables, notes, &mut lines)?;
    Ok(lines)
}
