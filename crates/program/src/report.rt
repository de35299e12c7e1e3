ghost use Rattle.std.specs.Prelude.{◌≡◌, ◌≤◌, OnOk, Some};
ghost use Rattle.kit_io.specs.Causes.{Rose, HasCause};
ghost use Rattle.kit_io.specs.Growth.{Grows};
ghost use Rattle.program.specs.Status.{denied_text, error_line, input_line, line_of, message_line, object_line, profile_line, rules_line, tables_line};

use crate::Status;
use crate::status::kind_word;
use itoa::Buffer;
use kit_io::{Sink, WriteFault, write_all_to};
use message_tables::TableFault;
use modem_profile::ProfileFault;
use modem_rules::RulesFault;
use named_messages::NamedFault;
use table_requests::InputFault;
use tool_words::UsageKind;

/// Refuses words that couldn't be read.
pub fn refuse<E: Sink>(err: &mut E) -> Status
    ensures status { result ≡ Status.Usage UsageKind.Words }
    ensures line { ¬ Rose (E.faults err.old) (E.faults err.new) → Grows (E.taken err.old) (line_of result) (E.taken err.new) }
{
    refuse_for(UsageKind::Words, err)
}

/// Refuses words for a reason.
pub fn refuse_for<E: Sink>(kind: UsageKind, err: &mut E) -> Status
    ensures status { result ≡ Status.Usage kind }
    ensures line { ¬ Rose (E.faults err.old) (E.faults err.new) → Grows (E.taken err.old) (line_of result) (E.taken err.new) }
{
    let status = Status::Usage { kind };
    report(&status, err);
    status
}

/// Says that no memory was there to begin with.
pub fn give_up<E: Sink>(err: &mut E) -> Status
    ensures status { result ≡ Status.OutOfMemory }
    ensures line { ¬ Rose (E.faults err.old) (E.faults err.new) → Grows (E.taken err.old) (line_of result) (E.taken err.new) }
{
    report(&Status::OutOfMemory, err);
    Status::OutOfMemory
}

/// Writes the line that tells how a run ended. A fault of the sink changes nothing.
pub fn report<E: Sink>(status: &Status, err: &mut E)
    ensures line { ¬ Rose (E.faults err.old) (E.faults err.new) → Grows (E.taken err.old) (line_of status.now) (E.taken err.new) }
    ensures later { E.faults err.old ≤ E.faults err.new }
{
    let _ = write_line(status, err);
}

#[tactic(auto, using(kit_io::proofs::Growth::growing))]
fn write_line<E: Sink>(status: &Status, err: &mut E) -> Result<(), WriteFault>
    ensures line { OnOk result (Grows (E.taken err.old) (line_of status.now) (E.taken err.new)) }
    ensures cause { HasCause (E.faults err.old) (E.faults err.new) result }
{
    match status {
        Status::Done => Ok(()),
        Status::Denied { function, code } => {
            let mut number = Buffer::new();
            write_error(denied_text(*function), number.format(*code).as_bytes(), err)
        }
        Status::Usage { kind } => write_error(b"usage: ", kind_word(*kind).as_bytes(), err),
        Status::LinkFault => write_error(b"link fault", b"", err),
        Status::LinkEnd => write_error(b"link ended", b"", err),
        Status::TimedOut => write_error(b"timed out", b"", err),
        Status::Broken { place } => {
            write_error(b"broken at ", Buffer::new().format(*place).as_bytes(), err)
        }
        Status::Flooded => write_error(b"flooded", b"", err),
        Status::WriteFault => write_error(b"write fault", b"", err),
        Status::TableFault { fault: None } => write_error(b"tables: long", b"", err),
        Status::TableFault { fault: Some(fault) } => write_fault_of_tables(*fault, err),
        Status::MessageFault { fault } => write_fault_of_message(*fault, err),
        Status::InputFault { fault } => write_fault_of_input(fault, err),
        Status::ReadFault => write_error(b"read fault", b"", err),
        Status::StartFault => write_error(b"start fault", b"", err),
        Status::NoProxy => write_error(b"no proxy", b"", err),
        Status::HubFault => write_error(b"hub fault", b"", err),
        Status::TurnsSpent => write_error(b"turns spent", b"", err),
        Status::ProfileFault { fault } => write_fault_of_profile(*fault, err),
        Status::RulesFault { fault } => write_fault_of_rules(*fault, err),
        Status::OutOfMemory => write_error(b"out of memory", b"", err),
    }
}

fn denied_text(function: bool) -> &'static [u8]
    ensures { result.now ≡ denied_text function }
{
    if function {
        b"function error "
    } else {
        b"denied "
    }
}

fn write_error<E: Sink>(what: &[u8], which: &[u8], err: &mut E) -> Result<(), WriteFault>
    ensures line { OnOk result (Grows (E.taken err.old) (error_line what.now which.now) (E.taken err.new)) }
    ensures cause { HasCause (E.faults err.old) (E.faults err.new) result }
{
    write_all_to(err, b"error: ")?;
    write_all_to(err, what)?;
    write_all_to(err, which)?;
    write_all_to(err, b"\n")?;
    Ok(())
}

#[tactic(auto, using(kit_io::proofs::Growth::growing))]
fn write_fault_of_tables<E: Sink>(fault: TableFault, err: &mut E) -> Result<(), WriteFault>
    ensures line { OnOk result (Grows (E.taken err.old) (tables_line (Some fault)) (E.taken err.new)) }
    ensures cause { HasCause (E.faults err.old) (E.faults err.new) result }
{
    let mut number = Buffer::new();
    match fault {
        TableFault::Json => write_error(b"tables: json", b"", err),
        TableFault::Member { object, name } => {
            let object = number.format(object).as_bytes();
            write_object(b"tables: member ", name.as_str().as_bytes(), object, err)
        }
        TableFault::Format { object } => {
            write_object(
                b"tables: format",
                b"",
                number.format(object).as_bytes(),
                err,
            )
        }
        TableFault::Twice { object } => {
            write_object(b"tables: twice", b"", number.format(object).as_bytes(), err)
        }
        TableFault::Deep { object } => {
            write_object(b"tables: deep", b"", number.format(object).as_bytes(), err)
        }
        TableFault::OutOfMemory => write_error(b"out of memory", b"", err),
    }
}

fn write_fault_of_message<E: Sink>(fault: NamedFault, err: &mut E) -> Result<(), WriteFault>
    ensures line { OnOk result (Grows (E.taken err.old) (message_line fault) (E.taken err.new)) }
    ensures cause { HasCause (E.faults err.old) (E.faults err.new) result }
{
    match fault {
        NamedFault::Json => write_error(b"tables: json", b"", err),
        NamedFault::Missing => write_error(b"tables: no such message", b"", err),
        NamedFault::Several => write_error(b"tables: several such messages", b"", err),
        NamedFault::Member(name) => {
            write_error(b"tables: member ", name.as_str().as_bytes(), err)
        }
        NamedFault::Format => write_error(b"tables: format", b"", err),
        NamedFault::Twice => write_error(b"tables: twice", b"", err),
        NamedFault::Deep => write_error(b"tables: deep", b"", err),
        NamedFault::OutOfMemory => write_error(b"out of memory", b"", err),
    }
}

fn write_fault_of_input<E: Sink>(fault: &InputFault, err: &mut E) -> Result<(), WriteFault>
    ensures line { OnOk result (Grows (E.taken err.old) (input_line fault.now) (E.taken err.new)) }
    ensures cause { HasCause (E.faults err.old) (E.faults err.new) result }
{
    match fault {
        InputFault::Json => write_error(b"input: json", b"", err),
        InputFault::NoTlv(pointer) => write_error(b"input: no TLV at ", pointer.as_slice(), err),
        InputFault::Value(pointer) => write_error(b"input: value at ", pointer.as_slice(), err),
        InputFault::Long => write_error(b"input: long", b"", err),
    }
}

fn write_fault_of_profile<E: Sink>(
    fault: Option<ProfileFault>,
    err: &mut E,
) -> Result<(), WriteFault>
    ensures line { OnOk result (Grows (E.taken err.old) (profile_line fault) (E.taken err.new)) }
    ensures cause { HasCause (E.faults err.old) (E.faults err.new) result }
{
    match fault {
        None => write_error(b"profile: long", b"", err),
        Some(ProfileFault::Json) => write_error(b"profile: json", b"", err),
        Some(ProfileFault::Member(name)) => {
            write_error(b"profile: ", name.as_str().as_bytes(), err)
        }
        Some(ProfileFault::OutOfMemory) => write_error(b"out of memory", b"", err),
    }
}

fn write_object<E: Sink>(
    what: &[u8],
    which: &[u8],
    number: &[u8],
    err: &mut E,
) -> Result<(), WriteFault>
    ensures line { OnOk result (Grows (E.taken err.old) (object_line what.now which.now number.now) (E.taken err.new)) }
    ensures cause { HasCause (E.faults err.old) (E.faults err.new) result }
{
    write_all_to(err, b"error: ")?;
    write_all_to(err, what)?;
    write_all_to(err, which)?;
    write_all_to(err, b" in ")?;
    write_all_to(err, number)?;
    write_all_to(err, b"\n")?;
    Ok(())
}

fn write_fault_of_rules<E: Sink>(fault: Option<RulesFault>, err: &mut E) -> Result<(), WriteFault>
    ensures line { OnOk result (Grows (E.taken err.old) (rules_line fault) (E.taken err.new)) }
    ensures cause { HasCause (E.faults err.old) (E.faults err.new) result }
{
    match fault {
        None => write_error(b"rules: long", b"", err),
        Some(RulesFault::Json) => write_error(b"rules: json", b"", err),
        Some(RulesFault::NoList(list)) => write_error(b"rules: ", list.as_str().as_bytes(), err),
        Some(RulesFault::NoRule(list, place)) => {
            let mut number = Buffer::new();
            let place = number.format(place).as_bytes();
            write_object(b"rules: ", list.as_str().as_bytes(), place, err)
        }
        Some(RulesFault::OutOfMemory) => write_error(b"out of memory", b"", err),
    }
}
