use crate::tool::ToolRow;
use call_rows::{HubCalls, link_of};
use child_io::MemSpawner;
use core_bench::MemBench;
use file_io::MemFiles;
use hub_io::{Hub, MemHub};
use kit_io::{MemSink, Sink};
use link_io::{Link, MemLink};
use many_io::ManyHub;
use many_memory::MemManyHub;
use program::{
    Status, device_count, refuse, run, run_proxy, run_pump, run_rig, run_simulator, run_tool,
};
use std::alloc::{AllocError, Global};
use std::mem::replace;
use watched_link::Watched;

/// What a run of the program left behind.
#[derive(Drop)]
pub struct Ran {
    pub status: Status,
    pub out: MemSink,
    pub err: MemSink,
    pub link: Watched<MemLink>,
    pub hub: MemHub,
    // that of several devices
    pub many: MemManyHub<MemHub>,
    pub kids: MemSpawner,
    pub files: MemFiles,
}

/// Runs the program over a bench and an outside that answers as the row tells. What its link gives
/// comes in one piece a take; or byte by byte, and then the call is that of the tool alone.
pub fn run_row(
    alloc: Global,
    row: &ToolRow<'_>,
    whole: bool,
    bench: &mut MemBench,
) -> Result<Ran, AllocError> {
    let mut ran = outside_of(alloc, row, whole)?;
    let status = if row.ends.unread {
        refuse(&mut ran.err)
    } else if whole {
        ran.run(alloc, &row.words, bench)
    } else {
        ran.run_as_tool(alloc, &row.words, bench)
    };
    drop(replace(&mut ran.status, status));
    Ok(ran)
}

// An outside that answers as the row tells, before the run.
fn outside_of(alloc: Global, row: &ToolRow<'_>, whole: bool) -> Result<Ran, AllocError> {
    let (out, err) = sinks_of(alloc, row)?;
    let (hub, many) = hubs_of(alloc, row)?;
    let (link, kids, files) = others_of(alloc, row, whole)?;
    Ok(Ran {
        status: Status::Done,
        out,
        err,
        link,
        hub,
        many,
        kids,
        files,
    })
}

// The standard output, and that of faults.
fn sinks_of(alloc: Global, row: &ToolRow<'_>) -> Result<(MemSink, MemSink), AllocError> {
    let out = MemSink::new(alloc, Vec::from_slice(alloc, &row.sink)?, 10_000)?;
    let err = MemSink::new(alloc, Vec::from_slice(alloc, &row.err_sink)?, 10_000)?;
    Ok((out, err))
}

// The hub of one device, and that of as many as the words name. The calls of a row are on the one that
// its words have a use for.
fn hubs_of(alloc: Global, row: &ToolRow<'_>) -> Result<(MemHub, MemManyHub<MemHub>), AllocError> {
    let none = HubCalls::none(alloc);
    let devices = device_count(alloc, &row.words)?;
    if is_of_several(&row.words) {
        let hub = none.hub(alloc)?;
        Ok((hub, row.hub.many(alloc, devices)?))
    } else {
        let hub = row.hub.hub(alloc)?;
        Ok((hub, none.many(alloc, devices)?))
    }
}

/// Whether these words are those of a proxy of several devices.
pub fn is_of_several(words: &[String]) -> bool {
    matches!(words.first().map(|word| word.as_str()), Some("qmi-proxies"))
}

// The link, the children and the files.
fn others_of(
    alloc: Global,
    row: &ToolRow<'_>,
    whole: bool,
) -> Result<(Watched<MemLink>, MemSpawner, MemFiles), AllocError> {
    let link = Watched::new(alloc, link_of(alloc, &row.calls, whole)?)?;
    let kids = row.kids.spawner(alloc)?;
    let files = row.files.files(alloc)?;
    Ok((link, kids, files))
}

impl Ran {
    /// How many calls were made on what children serve, and on the output.
    pub fn made(&self) -> u64 {
        let hubs = Hub::made(&self.hub).saturating_add(ManyHub::made(&self.many));
        let used = self.link.made().saturating_add(hubs);
        used.saturating_add(self.out.made())
    }

    fn run(&mut self, alloc: Global, words: &[String], bench: &mut MemBench) -> Status {
        let Ok(devices) = device_count(alloc, words) else {
            return Status::OutOfMemory;
        };
        if devices != self.many.devices() {
            return Status::OutOfMemory;
        }
        run(
            alloc,
            words,
            &mut self.out,
            &mut self.err,
            &mut self.link,
            &mut self.hub,
            &mut self.many,
            &mut self.kids,
            &mut self.files,
            bench,
        )
    }

    // What the first word names, by the call of this tool alone.
    fn run_as_tool(&mut self, alloc: Global, words: &[String], bench: &mut MemBench) -> Status {
        let (out, err) = (&mut self.out, &mut self.err);
        let (link, hub) = (&mut self.link, &mut self.hub);
        let (kids, files) = (&mut self.kids, &mut self.files);
        match words.first().map(|word| word.as_str()) {
            Some("qmicli" | "mbimcli") => run_tool(alloc, words, out, err, link, kids, files),
            Some("qmi-proxy" | "mbim-proxy") => run_proxy(alloc, words, err, hub, kids),
            Some("modem-sim") => run_simulator(alloc, words, err, hub, kids, files),
            Some("pump") => run_pump(alloc, words, err, link, files),
            Some("rig") => run_rig(alloc, words, out, err, bench),
            _ => self.run(alloc, words, bench),
        }
    }
}
