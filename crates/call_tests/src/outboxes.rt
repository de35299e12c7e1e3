use outbox::Outbox;

#[test]
fn bytes_are_queued_whole_or_not_at_all(rt: HostRuntime) {
    let mut outbox = Outbox::open(rt.alloc(), 8).expect(&rt, "memory");
    assert!(rt; outbox.is_empty() && outbox.queue(&[1, 2, 3, 4, 5]));
    assert!(rt; !outbox.queue(&[6, 7, 8, 9]) && outbox.len() == 5);
    outbox.taken(2);
    assert!(rt; outbox.room() == 5 && outbox.queue(&[6, 7, 8, 9]));
    let (first, second) = outbox.parts();
    assert!(rt; first == [3, 4, 5, 6, 7, 8].as_slice() && second == [9].as_slice());
    assert!(rt; outbox.front() == [3, 4, 5, 6, 7, 8].as_slice());
    outbox.straighten();
    assert!(rt; outbox.front() == [3, 4, 5, 6, 7, 8, 9].as_slice());
    outbox.taken(6);
    assert!(rt; outbox.front() == [9].as_slice());
    outbox.clear();
    assert!(rt; outbox.len() == 0);
}
