use child_io::{MemSpawner, Spawner, SpawnerAnswer};
use hub_io::{Hub, HubEvent, HubTurn, MemHub, NEXT_ROOM};
use kit_io::{Log, MemSink, Sink};

// What the contracts of the fakes leave open, and no row shows.

#[test]
fn what_doesnt_fit_isnt_told(rt: HostRuntime) {
    let alloc = rt.alloc();
    let mut sink = MemSink::new(alloc, Vec::new(alloc), 1).expect(&rt, "memory");
    assert!(rt; sink.write(&[7; 100]) == Ok(100) && sink.taken().is_none());
    let mut log = Log::new(alloc, 1, 1).expect(&rt, "memory");
    log.note((), &[7; 100]);
    assert!(rt; log.len().is_none() && log.at(0).is_none());
}

#[test]
fn an_end_cant_be_waited_for(rt: HostRuntime) {
    let alloc = rt.alloc();
    let mut script = Vec::new(alloc);
    script.push(SpawnerAnswer::Fails).expect(&rt, "memory");
    let mut spawner = MemSpawner::new(alloc, script, 0, 0).expect(&rt, "memory");
    assert!(rt; spawner.ended(1).is_err() && spawner.ended(1) == Ok(0));
}

/// Whether a hub can't tell what its turns tell, and then stops.
fn tells_nothing<H: Hub>(hub: &mut H) -> bool {
    let mut buffer = [0; NEXT_ROOM];
    hub.next(&mut buffer).is_err()
        && hub.next(&mut buffer).is_err()
        && hub.next(&mut buffer) == Ok(HubEvent::Stop)
}

#[test]
fn a_piece_has_bytes(rt: HostRuntime) {
    let alloc = rt.alloc();
    let mut turns = Vec::new(alloc);
    turns
        .push(HubTurn::Tells(HubEvent::ModemPiece(9)))
        .expect(&rt, "memory");
    turns
        .push(HubTurn::ModemGives(Vec::new(alloc)))
        .expect(&rt, "memory");
    let mut hub = MemHub::new(alloc, turns, Vec::new(alloc), 0, 0).expect(&rt, "memory");
    assert!(rt; tells_nothing(&mut hub));
}
