//! The least fault of a text.

use sta_text::{Wrong, lesser};
use std::process::Abort;
use timing_defs::{Code, ReadFault};

/// Takes a fault, and asserts which code the least fault so far has.
fn take(rt: &impl Abort, best: Option<Wrong>, code: Code, at: usize, want: Code) -> Option<Wrong> {
    let least = lesser(best, Wrong { code, at }).expect(rt, "a fault");
    assert_eq!(rt; least.code, want);
    Some(least)
}

#[test]
fn chooses_the_least_fault(rt: HostRuntime) {
    use Code::{
        LibertyBadUnit, LibertyIndexNotRising, LibertyOtherDelayModel, LibertyTooMany,
        LibertyUnbalanced,
    };
    let best = take(&rt, None, LibertyBadUnit, 9, LibertyBadUnit);
    let best = take(&rt, best, LibertyTooMany, 7, LibertyTooMany);
    let best = take(&rt, best, LibertyIndexNotRising, 7, LibertyIndexNotRising);
    let best = take(&rt, best, LibertyOtherDelayModel, 7, LibertyIndexNotRising);
    let best = take(&rt, best, LibertyUnbalanced, 8, LibertyIndexNotRising);
    let told = best.expect(&rt, "a fault").told();
    let want = ReadFault::At {
        code: LibertyIndexNotRising,
        offset: 7,
    };
    assert_eq!(rt; told, want);
}
