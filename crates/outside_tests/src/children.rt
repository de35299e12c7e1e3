use child_io::{Spawner, StdSpawner};
use kit_io::Failed;
use std::alloc::Global;
use std::process::{Abort, Processes};
use std::time::{Duration, Instant};

fn word<R: Abort>(rt: &R, alloc: Global, text: &str) -> String {
    String::from_str(alloc, text).expect(rt, "memory")
}

fn starter<'a, R: Abort + Processes>(rt: &'a R, alloc: Global, program: &str) -> StdSpawner<'a, R> {
    StdSpawner::new(rt, alloc, word(rt, alloc, program)).expect(rt, "memory")
}

// What is done with children stands in functions over any spawner: a check takes far longer over a real one.

/// How a child ends that is started with these words.
fn end_of<P: Spawner>(spawner: &mut P, words: &[String]) -> Result<i32, Failed> {
    let child = spawner.start(words)?;
    spawner.ended(child)
}

/// How a script ends.
fn script_ends<P: Spawner, R: Abort>(
    rt: &R,
    alloc: Global,
    spawner: &mut P,
    script: &str,
) -> Result<i32, Failed> {
    end_of(spawner, &[word(rt, alloc, "-c"), word(rt, alloc, script)])
}

/// Starts two children and stops both. They are known no more then.
fn stops<P: Spawner>(spawner: &mut P, words: &[String]) -> Result<bool, Failed> {
    let first = spawner.start(words)?;
    let second = spawner.start(words)?;
    spawner.stop(first, 0)?;
    spawner.stop(second, 0)?;
    Ok(first != second && spawner.ended(first).is_err() && spawner.stop(second, 0).is_err())
}

#[test]
fn programs_end_with_their_status(rt: HostRuntime) {
    let alloc = rt.alloc();
    let mut spawner = starter(&rt, alloc, "/bin/sh");
    assert!(rt; script_ends(&rt, alloc, &mut spawner, "exit 200") == Ok(200));
    assert!(rt; script_ends(&rt, alloc, &mut spawner, "kill -9 $$") == Ok(-1));
    // there is nothing to read
    assert!(rt; script_ends(&rt, alloc, &mut spawner, "read line || exit 3") == Ok(3));
}

#[test]
fn programs_are_stopped(rt: HostRuntime) {
    let alloc = rt.alloc();
    let mut spawner = starter(&rt, alloc, "/bin/sh");
    let begun = Instant::now(&rt).expect(&rt, "a clock");
    let words = [word(&rt, alloc, "-c"), word(&rt, alloc, "exec sleep 60")];
    assert!(rt; stops(&mut spawner, &words) == Ok(true));
    assert!(rt; begun.elapsed(&rt).expect(&rt, "a clock") < Duration::from_secs(30));
}

#[test]
fn a_program_that_isnt_there_isnt_started(rt: HostRuntime) {
    let mut spawner = starter(&rt, rt.alloc(), "/no/such/program");
    assert!(rt; end_of(&mut spawner, &[]) == Err(Failed));
}
