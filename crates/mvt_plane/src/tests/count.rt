use crate::Count;

#[test]
fn each_tick_counts_its_own_number(rt: HostRuntime) {
    let mut count = Count::new();
    count.tick_test();
    count.tick_probe();
    count.tick_probe();
    count.tick_probes(3);
    count.tick_visit();
    count.tick_visits(2);
    assert!(rt; count.tests() == 1);
    assert!(rt; count.probes() == 5);
    assert!(rt; count.visits() == 3);
}
