//! Counts of steps.

use sta_units::Steps;

#[test]
fn a_count_has_no_bytes(rt: HostRuntime) {
    let mut steps: Steps<u8> = Steps::none();
    steps.tick();
    let mut more: Steps<u8> = Steps::none();
    more.tick();
    steps.add(more);
    assert_eq!(rt; std::mem::size_of_val(&steps), 0);
}
