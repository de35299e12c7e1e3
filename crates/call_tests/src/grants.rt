use holders::Holders;

#[test]
fn an_id_has_one_holder(rt: HostRuntime) {
    let mut holders = Holders::open(rt.alloc()).expect(&rt, "memory");
    assert!(rt; holders.holder(2, 5).is_none() && holders.grant(1, 2, 5));
    assert!(rt; !holders.grant(7, 2, 5) && holders.holder(2, 5) == Some(1));
    assert!(rt; holders.grant(7, 1, 9) && holders.holds_any(7, 1));
    holders.released(1, 2, 5);
    holders.left(7, 1_000);
    assert!(rt; holders.holder(2, 5).is_none() && !holders.holds_any(7, 1));
    assert!(rt; holders.kept(2, 5).is_none() && holders.kept(1, 9) == Some(1_000));
    assert!(rt; holders.due(60_999, 60_000).is_none());
    assert!(rt; holders.due(61_000, 60_000) == Some((1, 9)));
    assert!(rt; holders.grant(0, 1, 9) && holders.kept(1, 9).is_none());
    holders.left(0, 70_000);
    assert!(rt; holders.kept(1, 9) == Some(70_000));
    holders.used(1, 9);
    assert!(rt; holders.kept(1, 9).is_none() && holders.grant(1, 2, 5));
    holders.clear();
    assert!(rt; holders.holder(2, 5).is_none());
}
