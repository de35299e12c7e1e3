//! The program: it hands words, standard streams, sockets, children, files and a bench to `program`.
//! Its link and its hub are Unix sockets, its children are processes that run it again, and its bench
//! runs the cores of its proxies.
#![tactic(auto)]

ghost use Rattle.std.specs.Prelude.{map, string_bytes};
ghost use Rattle.program.specs.Several.{HasRoom};
ghost use Rattle.tool_words.specs.Command.{command_in};

use child_io::{Spawner, StdSpawner};
use core_bench::Cores;
use file_io::{Complain, StdFiles};
use hub_io::Hub;
use kit_io::{Sink, StdSink};
use many_io::ManyHub;
use mio_hub::{MioHub, MioManyHub};
use program::{Status, device_count, give_up, refuse, run};
use std::alloc::{AllocError, Global};
use std::cell::Cell;
use std::io::{BufWriter, Write};
use std::net::Net;
use std::os::fd::{AsFd, BorrowedFd, OwnedFd};
use std::process::ExitCode;
use std::{env, io};
use unix_link::UnixLink;
use watched_link::{Watch, Watched};

/// How many bytes are kept of what is to go to the standard error: more than almost every line has.
const LINE_ROOM: usize = 1_024;

fn main(rt: HostRuntime) -> ExitCode {
    let status = match BufWriter::with_capacity(rt.alloc(), LINE_ROOM, rt.stderr()) {
        Ok(mut lines) => {
            let status = run_above(&rt, &mut lines);
            let _ = lines.flush();
            status
        }
        Err(_) => give_up(&mut StdSink::new(rt.stderr())),
    };
    ExitCode::from(status.code())
}

// Does what the words ask. Its own lines go to the writer, which writes them in the end, and at once:
// no other process's line stands in the midst of one, and those of its children stand before them.
// Whoever is at the other end of its link finds that closed behind them.
fn run_above<W: Write>(rt: &HostRuntime, lines: &mut W) -> Status {
    let socket = Cell::new(-1);
    let link = UnixLink::new(rt, rt.alloc(), &socket);
    let Ok(mut link) = Watched::new(rt.alloc(), link) else {
        return give_up(&mut StdSink::new(lines));
    };
    let mut files = StdFiles::new(rt, rt.alloc(), &socket);
    let status = run_before(rt, lines, &mut link, &mut files);
    let _ = lines.flush();
    drop(files);
    drop(link);
    status
}

// The same, over a link and files that are there.
fn run_before<W: Write, L: Watch, F: Complain>(
    rt: &HostRuntime,
    lines: &mut W,
    link: &mut L,
    files: &mut F,
) -> Status {
    let mut out = StdSink::new(rt.stdout());
    let mut err = StdSink::new(lines);
    match stand_ins(rt) {
        Ok(_kept) => run_over(rt, &mut out, &mut err, link, files),
        Err(_) => give_up(&mut err),
    }
}

// Does what the words ask, over sockets, processes and files.
fn run_over<O: Sink, E: Sink, L: Watch, F: Complain>(
    rt: &HostRuntime,
    out: &mut O,
    err: &mut E,
    link: &mut L,
    files: &mut F,
) -> Status {
    let Ok(mut spawner) = spawner_of(rt) else {
        return give_up(err);
    };
    let status = run_beside(rt, out, err, link, &mut spawner, files);
    if !matches!(status, Status::Done | Status::Denied { .. }) {
        tell_complaints(rt, &mut spawner);
    }
    drop(spawner);
    status
}

// The same, where children can be started.
fn run_beside<O: Sink, E: Sink, L: Watch, P: Spawner, F: Complain>(
    rt: &HostRuntime,
    out: &mut O,
    err: &mut E,
    link: &mut L,
    spawner: &mut P,
    files: &mut F,
) -> Status {
    let Ok(mut hub) = MioHub::new(rt, rt.alloc()) else {
        return give_up(err);
    };
    let status = run_read(rt, out, err, link, &mut hub, spawner, files);
    drop(hub);
    status
}

// Says what a proxy said that was started in vain. Beside an answer nothing is said.
fn tell_complaints(rt: &HostRuntime, spawner: &mut StdSpawner<'_, HostRuntime>) {
    let mut complaints = [0; LINE_ROOM];
    let count = spawner.take_complaints(&mut complaints);
    if let Some(said) = complaints.get(..count) {
        let _ = rt.stderr().write_all(said);
    }
}

// The same, where the outside is open.
fn run_read<O: Sink, E: Sink, L: Watch, H: Hub, P: Spawner, F: Complain>(
    rt: &HostRuntime,
    out: &mut O,
    err: &mut E,
    link: &mut L,
    hub: &mut H,
    spawner: &mut P,
    files: &mut F,
) -> Status {
    match read_words(rt) {
        Ok(words) => run_words(rt, &words, out, err, link, hub, spawner, files),
        Err(_) => refuse(err),
    }
}

// Does what the words ask, with a hub for as many devices as they name.
fn run_words<O: Sink, E: Sink, L: Watch, H: Hub, P: Spawner, F: Complain>(
    rt: &HostRuntime,
    words: &[String],
    out: &mut O,
    err: &mut E,
    link: &mut L,
    hub: &mut H,
    spawner: &mut P,
    files: &mut F,
) -> Status {
    let Ok(devices) = device_count(rt.alloc(), words) else {
        return give_up(err);
    };
    let Ok(mut many) = MioManyHub::new(rt, rt.alloc(), devices) else {
        return give_up(err);
    };
    let status = run_on_bench(
        rt.alloc(),
        words,
        out,
        err,
        link,
        hub,
        &mut many,
        spawner,
        files,
    );
    drop(many);
    status
}

// The same, with a bench of its own.
fn run_on_bench<O: Sink, E: Sink, L: Watch, H: Hub, M: ManyHub, P: Spawner, F: Complain>(
    alloc: Global,
    words: &[String],
    out: &mut O,
    err: &mut E,
    link: &mut L,
    hub: &mut H,
    many: &mut M,
    spawner: &mut P,
    files: &mut F,
) -> Status
    requires { HasRoom (command_in (map string_bytes words.now)) (M.devices many.old) }
{
    let mut bench = Cores::none();
    let status = run(
        alloc, words, out, err, link, hub, many, spawner, files, &mut bench,
    );
    drop(bench);
    status
}

// What starts this program again. Every start fails where the system doesn't tell the program's path.
fn spawner_of(rt: &HostRuntime) -> Result<StdSpawner<'_, HostRuntime>, AllocError> {
    let program = match env::current_exe(rt) {
        Ok(path) => String::from_str(rt.alloc(), path.as_str())?,
        Err(_) => String::new(rt.alloc()),
    };
    StdSpawner::new(rt, rt.alloc(), program)
}

// The words behind the program's name.
fn read_words(rt: &HostRuntime) -> io::Result<Vec<String>> {
    Ok(env::args(rt)?.skip(1).collect(rt.alloc())?)
}

// Sockets that lead nowhere, in place of the standard streams that were closed from the start. Else
// the modem's socket could become one of them, and what is written there would go to the modem.
fn stand_ins(rt: &HostRuntime) -> io::Result<[Option<OwnedFd>; 3]> {
    Ok([
        stand_in(rt, rt.stdin().as_fd())?,
        stand_in(rt, rt.stdout().as_fd())?,
        stand_in(rt, rt.stderr().as_fd())?,
    ])
}

// It gets the least number that is free: that of the stream, where those before it are taken.
fn stand_in(rt: &HostRuntime, stream: BorrowedFd<'_>) -> io::Result<Option<OwnedFd>> {
    match stream.try_clone_to_owned() {
        Ok(_open) => Ok(None),
        Err(_closed) => Ok(Some(rt.unix_socket()?)),
    }
}
