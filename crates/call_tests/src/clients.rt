use connections::Connections;
use qmi_state::Client;
use qmux_frame::Qmux;

#[test]
fn clients_join_and_leave(rt: HostRuntime) {
    let mut table: Connections<Qmux, Client> = Connections::open(rt.alloc(), 1, 8).expect(
        &rt, "memory",
    );
    assert!(rt; table.next_dropped().is_none() && table.greatest() < 3 && table.join(3));
    assert!(rt; table.tell(3, &[1, 2], &[3, 4, 5]) && table.waiting_from(0) == Some(0));
    assert!(rt; table.queued(3) == [1, 2, 3, 4, 5].as_slice());
    table.take(3, 5);
    assert!(rt; table.find(3) == Some(0) && table.present() == 1);
    assert!(rt; table.name_at(0) == 3 && !table.client_at(0).opened);
    assert!(rt; !table.tell(3, &[1, 2, 3, 4], &[5, 6, 7, 8, 9]));
    assert!(rt; table.next_dropped() == Some(3) && !table.leave(3));
}
