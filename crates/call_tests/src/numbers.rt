use number_space::{Found, Space};

#[test]
fn numbers_are_given_in_turn(rt: HostRuntime) {
    let mut space = Space::open(rt.alloc(), 2, 3).expect(&rt, "memory");
    assert!(rt; space.give(7, 'a', 100) == Some(1));
    assert!(rt; space.give(8, 'b', 200) == Some(2));
    assert!(rt; space.give(7, 'c', 300).is_none());
    assert!(rt; space.numbers().len() == 2 && space.is_awaited(8));
    assert!(rt; space.answer(1) == Found::Pending(7, 'a'));
    assert!(rt; space.expire(200) == Some((8, 'b')));
    space.orphan(8);
    assert!(rt; space.look(2) == Some((8, 'b', false)));
    space.reset();
    assert!(rt; space.answer(2) == Found::Stray);
    assert!(rt; space.give(9, 'd', 400) == Some(3));
}
