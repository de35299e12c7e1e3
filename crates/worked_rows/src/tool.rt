use crate::asked::{asked, requested};
use crate::ran::{Ran, is_of_several, run_row};
use call_rows::{
    Call, FileCalls, HubCalls, KidCalls, Noted, made_by, made_calls, push_calls, told_calls,
};
use core_bench::MemBench;
use core_rows::{BenchRuns, is_same_alone};
use kit_io::SinkAnswer;
use row_text::{Line, Place, Row, RowFault, Rows, Spelled, is, lines_of, text_of, words_of};
use std::alloc::Global;

/// A run of the program as a tool: its words, how its outside answers, and all that it does. Its
/// lines tell of the calls on the link, but for the last one, which closes it:
///
///     opens, sends, takes: BYTES          quiet:    ends:
///     open fails, send fails: BYTES       take fails:
///     bridge opens, bridge open fails: BYTES      pairs:    pair fails:
///
/// A send that fails has sent the first half. `repeats: N` makes the next of these N. Further lines:
///
///     stdout takes: N     stdout fails:        how stdout answers; then it takes all
///     stderr fails:                            stderr takes nothing
///     file: TEXT          file bytes: BYTES    what the reads of the file give; then it ends
///     read fails:         file open fails:     a call on the file that fails
///     file calls: N                            how many calls are made on it
///     opens to read, opens to write: PATH      the file that is opened; then each call on it is told,
///     open to read fails, open to write fails: PATH       in these two lines all of them
///     file ends:                               a read that finds the end
///     writes: BYTES       write fails:         what a write takes, or that it fails
///     stays open:                              the link isn't closed
///     starts, start fails: WORDS               a child that is started, or can't be
///     stops, stop fails: N                     the Nth child that is stopped, or can't be
///     child ends: N STATUS                     the Nth child, which is waited for, ends so
///     child end fails: N                       or can't be waited for
///     out: LINE           out begins: TEXT     what is printed
///     err: LINE           status: N            how the run ends
///     asks: COMMAND       requests: REQUEST    what the words ask for; then nothing is run
///     words repeat: N TEXT                     the last word goes on with N times a text
///     unread:                                  the words can't be read
///     uncut:                                   what the link gives can't come byte by byte
///
/// A row tells all calls on the hub:
///
///     hub opens, hub open fails: PATH         its socket, with that of its device, or of its bridge,
///     device: PATH        bridge: PATH        in the next line
///     hub pairs:          hub pair fails:
///     joins: N            leaves: N           lost:       clock: MILLISECONDS     what it tells
///     from N: BYTES       from modem: BYTES   what it gives
///     hub ends:           hub fails:          it tells to stop, or can't tell anything
///     to N: BYTES         to modem: BYTES     what is sent, and is taken whole
///     to N fails: BYTES   to modem fails: BYTES       or can't be sent
///     reopens:            reopen fails:       hangs up: N
///
/// On a hub of several devices, `device` or `bridge` stands once for each of them, and the device of a
/// modem is named: `from modem 1`, `to modem 1`, `lost: 1`, `reopens: 1`. It is 0 where it isn't.
///
/// and all that is run on the bench:
///
///     runs: KIND          a core of the device `rig` is opened, and meets what follows
///     joined: N           piece: N BYTES       took: N COUNT
///     modem took: COUNT   modem piece: BYTES   now: MILLISECONDS
///     same alone:                              cores that meet what was run give what the lines say
#[derive(Drop)]
pub struct ToolRow<'a> {
    pub words: Vec<String>,
    pub calls: Vec<Call>,
    pub sink: Vec<SinkAnswer>,
    pub err_sink: Vec<SinkAnswer>,
    pub files: FileCalls,
    pub kids: KidCalls,
    pub hub: HubCalls,
    pub bench: BenchRuns,
    pub ends: Ends<'a>,
    // How often the next call is made.
    times: u32,
}

/// How a run ends, what else a row tells of it, and what it tells in place of a run.
#[derive(Clone, Copy)]
pub struct Ends<'a> {
    pub unread: bool,
    uncut: bool,
    stays_open: bool,
    status: u8,
    asks: Option<&'a str>,
    requests: Option<&'a str>,
}

/// Whether a row is what is found. Tells what differs.
pub fn is_as_told<R: Print>(
    rt: &R,
    alloc: Global,
    place: Place<'_>,
    rows: &Rows<'_>,
    row: &Row<'_>,
) -> Result<bool, RowFault> {
    let told = read_tool_row(alloc, rows, row)?;
    let same = is_found(rt, alloc, place, row, &told);
    drop(told);
    same
}

fn is_found<R: Print>(
    rt: &R,
    alloc: Global,
    place: Place<'_>,
    row: &Row<'_>,
    told: &ToolRow<'_>,
) -> Result<bool, RowFault> {
    if let Some(asks) = told.ends.asks {
        let found = asked(alloc, &told.words)?;
        return Ok(is(rt, place, "asks", asks, found.as_str()));
    }
    if let Some(requests) = told.ends.requests {
        let found = requested(alloc, &told.words)?;
        return Ok(is(rt, place, "requests", Some(requests), found.as_deref()));
    }
    let is_again = !told.ends.uncut && !(told.calls.is_empty() && told.hub.is_empty());
    Ok(
        runs_as_told(rt, alloc, place, row, told, true)?
            && (!is_again || runs_as_told(rt, alloc, place, row, told, false)?),
    )
}

fn read_tool_row<'a>(
    alloc: Global,
    rows: &Rows<'a>,
    row: &Row<'a>,
) -> Result<ToolRow<'a>, RowFault> {
    let mut told = ToolRow {
        words: words_of(alloc, row.first.value)?,
        calls: Vec::new(alloc),
        sink: Vec::new(alloc),
        err_sink: Vec::new(alloc),
        files: FileCalls::none(alloc),
        kids: KidCalls::none(alloc),
        hub: HubCalls::none(alloc),
        bench: BenchRuns::none(alloc),
        ends: Ends {
            unread: false,
            uncut: false,
            stays_open: false,
            status: 0,
            asks: None,
            requests: None,
        },
        times: 1,
    };
    match told.add_lines(alloc, rows, row) {
        Ok(()) => Ok(told),
        Err(fault) => {
            drop(told);
            Err(fault)
        }
    }
}

impl<'a> Ends<'a> {
    // Adds what a key of a row tells of, where the key is one of these.
    fn add(&mut self, key: &str, value: &'a str) -> Result<bool, RowFault> {
        match key {
            "asks" => self.asks = Some(value),
            "requests" => self.requests = Some(value),
            "out" | "out begins" | "err" => {}
            "status" => self.status = value.parse::<u8>()?,
            "unread" => self.unread = true,
            "uncut" => self.uncut = true,
            "stays open" => self.stays_open = true,
            _ => return Ok(false),
        }
        Ok(true)
    }
}

impl<'a> ToolRow<'a> {
    fn add_lines(&mut self, alloc: Global, rows: &Rows<'_>, row: &Row<'a>) -> Result<(), RowFault> {
        for line in &row.rest {
            if let Err(fault) = self.add(alloc, rows, line) {
                return Err(fault.at(line.number));
            }
        }
        Ok(())
    }

    fn add(&mut self, alloc: Global, rows: &Rows<'_>, line: &Line<'a>) -> Result<(), RowFault> {
        let (key, value) = (line.key, line.value);
        if self.ends.add(key, value)?
            || self.add_own(key, value)?
            || self.kids.add(alloc, key, value)?
            || self.files.add(alloc, rows, key, value)?
            || self.hub.add(alloc, rows, key, value)?
            || self.bench.add(alloc, rows, key, value)?
        {
            return Ok(());
        }
        self.add_calls(alloc, rows, key, value)
    }

    fn add_own(&mut self, key: &str, value: &str) -> Result<bool, RowFault> {
        match key {
            "words repeat" => self.lengthen_word(value)?,
            "repeats" => self.times = value.parse::<u32>()?,
            "stdout takes" => self.sink.push(SinkAnswer::Takes(value.parse::<usize>()?))?,
            "stdout fails" => self.sink.push(SinkAnswer::Fails)?,
            "stderr fails" => self.err_sink.push(SinkAnswer::Fails)?,
            _ => return Ok(false),
        }
        Ok(true)
    }

    fn add_calls(
        &mut self,
        alloc: Global,
        rows: &Rows<'_>,
        key: &str,
        value: &str,
    ) -> Result<(), RowFault> {
        let made = made_by(key).ok_or(RowFault::new("no key of a row"))?;
        let bytes = rows.bytes_of(value)?;
        push_calls(alloc, &mut self.calls, made, &bytes, self.times)?;
        self.times = 1;
        Ok(())
    }

    fn lengthen_word(&mut self, value: &str) -> Result<(), RowFault> {
        let Some((count, text)) = value.split_once(' ') else {
            return Err(RowFault::new("no count and text"));
        };
        let Some(word) = self.words.last_mut() else {
            return Err(RowFault::new("no word"));
        };
        for _ in 0..count.parse::<u32>()? {
            word.push_str(text)?;
        }
        Ok(())
    }
}

fn runs_as_told<R: Print>(
    rt: &R,
    alloc: Global,
    place: Place<'_>,
    row: &Row<'_>,
    told: &ToolRow<'_>,
    whole: bool,
) -> Result<bool, RowFault> {
    let mut bench = told.bench.bench(alloc)?;
    let same = runs_on_bench(rt, alloc, place, row, told, whole, &mut bench);
    drop(bench);
    same
}

fn runs_on_bench<R: Print>(
    rt: &R,
    alloc: Global,
    place: Place<'_>,
    row: &Row<'_>,
    told: &ToolRow<'_>,
    whole: bool,
    bench: &mut MemBench,
) -> Result<bool, RowFault> {
    let ran = run_row(alloc, told, whole, bench)?;
    let ends = ends_as_told(rt, alloc, place, row, told, &ran);
    let calls = calls_as_told(rt, alloc, place, told, &ran, whole);
    drop(ran);
    let runs = bench_as_told(rt, alloc, place, row, told, bench)?;
    Ok(calls? && ends? && runs)
}

fn ends_as_told<R: Print>(
    rt: &R,
    alloc: Global,
    place: Place<'_>,
    row: &Row<'_>,
    told: &ToolRow<'_>,
    ran: &Ran,
) -> Result<bool, RowFault> {
    let status = is(rt, place, "status", told.ends.status, ran.status.code());
    let out = is_printed(rt, alloc, place, row, "out", ran.out.taken())?;
    let err = is_printed(rt, alloc, place, row, "err", ran.err.taken())?;
    Ok(status && out && err)
}

// Whether what was printed are the lines of this key.
fn is_printed<R: Print>(
    rt: &R,
    alloc: Global,
    place: Place<'_>,
    row: &Row<'_>,
    key: &str,
    taken: Option<&[u8]>,
) -> Result<bool, RowFault> {
    let told = lines_of(alloc, row, key)?;
    let found = match taken {
        Some(bytes) => text_of(bytes),
        None => "too long to be told",
    };
    Ok(is(rt, place, key, told.as_str(), found))
}

fn calls_as_told<R: Print>(
    rt: &R,
    alloc: Global,
    place: Place<'_>,
    told: &ToolRow<'_>,
    ran: &Ran,
    whole: bool,
) -> Result<bool, RowFault> {
    let files = told.files.differs_at(&ran.files);
    let kids = told.kids.differs_at(alloc, &ran.kids, ran.made())?;
    let hub = if is_of_several(&told.words) {
        told.hub.differs_in(&ran.many)
    } else {
        told.hub.differs_at(&ran.hub)
    };
    let same = is(rt, place, "the file call that differs", None, files)
        && is(rt, place, "the child call that differs", None, kids)
        && is(rt, place, "the hub call that differs", None, hub);
    Ok(is_count(rt, place, told, ran) && link_as_told(rt, alloc, place, told, ran, whole)? && same)
}

// Whether as many calls on files were made as a row tells, where it tells that.
fn is_count<R: Print>(rt: &R, place: Place<'_>, told: &ToolRow<'_>, ran: &Ran) -> bool {
    let count = told.files.count;
    count.is_none() || is(rt, place, "file calls", count, ran.files.log().len())
}

fn bench_as_told<R: Print>(
    rt: &R,
    alloc: Global,
    place: Place<'_>,
    row: &Row<'_>,
    told: &ToolRow<'_>,
    bench: &MemBench,
) -> Result<bool, RowFault> {
    let differs = told.bench.differs_at(bench);
    let same = is(
        rt,
        place,
        "the note of the bench that differs",
        None,
        differs,
    );
    if !told.bench.same_alone {
        return Ok(same);
    }
    let lines = lines_of(alloc, row, "out")?;
    let turns = turns_of(&told.words)?;
    Ok(is_same_alone(rt, alloc, place, bench.log(), turns, &lines)? && same)
}

// How many turns the words of a rig ask for.
fn turns_of(words: &[String]) -> Result<u64, RowFault> {
    for word in words {
        if let Some(turns) = word.strip_prefix("--messages=") {
            return Ok(turns.parse::<u64>()?);
        }
    }
    Ok(100)
}

fn link_as_told<R: Print>(
    rt: &R,
    alloc: Global,
    place: Place<'_>,
    told: &ToolRow<'_>,
    ran: &Ran,
    whole: bool,
) -> Result<bool, RowFault> {
    let calls = told_calls(alloc, &told.calls, whole, !told.ends.stays_open)?;
    let made = made_calls(alloc, ran.link.link().log(), whole)?;
    Ok(are_calls(rt, place, &calls, &made))
}

// Whether the calls that are told are those that were made. Tells the first that differs.
fn are_calls<R: Print>(rt: &R, place: Place<'_>, told: &[Noted<'_>], made: &[Noted<'_>]) -> bool {
    for (told, made) in told.iter().zip(made) {
        if told != made {
            let (told_bytes, made_bytes) = (Spelled(told.1), Spelled(made.1));
            let _ = println!(rt;
                "{place}: calls {:?}{made_bytes}, not {:?}{told_bytes}",
                made.0, told.0
            );
            return false;
        }
    }
    is(rt, place, "count of calls", told.len(), made.len())
}
