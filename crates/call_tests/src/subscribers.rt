use kit_bytes::services::SMS;
use subscriptions::{PairList, Subscriptions};
use uuid::Uuid;

#[test]
fn a_list_counts_while_it_is_shown(rt: HostRuntime) {
    let sms = Uuid::from_bytes(SMS);
    let mut table = Subscriptions::open(rt.alloc()).expect(&rt, "memory");
    let mut list = PairList::open(rt.alloc()).expect(&rt, "memory");
    table.joined(1);
    assert!(rt; list.push(sms, Some(2)) && table.set(1, &list).is_ok());
    assert!(rt; table.wants(1, sms, 2) && !table.wants(1, sms, 3));
    table.merged(&mut list);
    assert!(rt; list.len() == 0);
    table.show(1, true);
    table.list(1, &mut list);
    assert!(rt; list.pairs() == [(sms, Some(2))].as_slice());
    assert!(rt; table.merged_list().pairs() == list.pairs());
    table.leave(1);
    list.clear();
    assert!(rt; table.merged_list().len() == 0);
}
