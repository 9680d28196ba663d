//! Questions that closing timing needs and their answers: what hangs on a net, which sizes a gate has, why a path is late,
//! and which endpoints and paths of the whole design are worst.

use crate::items::Items;
use crate::kinds::{Dir, Kind, Tran};
use crate::names::Name;
use crate::parasitics::NetRc;
use crate::reports::{Candidate, EndRow};
use crate::rows::{Path, PathNode, PinCap};
use sta_units::{Af, Fs, Mo};

/// What resizes are advised for: the worst slack of a kind, or its total negative slack.
#[derive(Clone, Copy, Drop)]
pub enum Aim {
    Wns,
    Tns,
}

/// A question that closing timing needs: a net with its sinks, an instance with its pins, the cells to which an instance may be
/// resized; the worst path of an endpoint (perhaps through pins in order) stage by stage with the parts of its required time; the
/// worst paths over all endpoints, at most `count` and at most `each` of one endpoint; the endpoints that fail; the totals by
/// clock; the skew of each launch edge; the best of some resizes by total negative slack; the best sizes of some instances.
#[derive(Drop)]
pub enum ClosingQuery {
    Net {
        net: Name,
    },
    Instance {
        inst: Name,
    },
    Sizes {
        inst: Name,
    },
    Timing {
        pin: Name,
        kind: Kind,
    },
    TimingThrough {
        pin: Name,
        kind: Kind,
        pins: Items<Name>,
    },
    WorstPaths {
        kind: Kind,
        count: u32,
        each: u32,
    },
    Failing {
        kind: Kind,
    },
    Summary {
        kind: Kind,
    },
    Skew,
    AdviseTns {
        kind: Kind,
        candidates: Items<Candidate>,
    },
    AdviseSizes {
        kind: Kind,
        aim: Aim,
        insts: Items<Name>,
    },
}

/// The wires of a net: ideal ones without parasitics, a lumped capacitance, or a tree of resistors with so many nodes and the
/// sum of its resistances in mΩ.
#[derive(Drop)]
pub enum WireModel {
    Ideal,
    Lumped,
    Tree { nodes: u64, resistance: Mo },
}

/// A sink of a net: its capacitance in aF and the delay of the wire to it in fs, before derates, of both splits; no delay where
/// nothing drives the net.
#[derive(Drop)]
pub struct SinkReport {
    pub pin: Name,
    pub early_cap: Af,
    pub late_cap: Af,
    pub early_delay: Option<Fs>,
    pub late_delay: Option<Fs>,
}

/// A net: its driver, its load in aF of both splits, its wires, its sinks by name, and the parasitics that an edit would give it.
#[derive(Drop)]
pub struct NetReport {
    pub driver: Option<Name>,
    pub early_load: Af,
    pub late_load: Af,
    pub wires: WireModel,
    pub sinks: Items<SinkReport>,
    pub rc: Option<NetRc>,
}

/// What a pin of an instance is joined to: a net, a constant or nothing in writing (tied), or nothing (open).
#[derive(Drop)]
pub enum Junction {
    Net(Name),
    Tied,
    Open,
}

/// A pin of an instance.
#[derive(Drop)]
pub struct PinReport {
    pub pin: Name,
    pub dir: Dir,
    pub joined: Junction,
}

/// An instance: its cell, and the pins of that by name.
#[derive(Drop)]
pub struct InstanceReport {
    pub cell: Name,
    pub pins: Items<PinReport>,
}

/// A cell to which an instance may be resized, whether it has the pins, arcs and tests of the present one, and the capacitances of
/// its input pins in aF (late), by name.
#[derive(Drop)]
pub struct SizeChoice {
    pub cell: Name,
    pub alike: bool,
    pub inputs: Items<PinCap>,
}

/// The cell of an instance, and the cells to which it may be resized, by name.
#[derive(Drop)]
pub struct SizesReport {
    pub cell: Name,
    pub choices: Items<SizeChoice>,
}

/// What a driver drives: its net, the load in aF, and the count of sinks.
#[derive(Drop)]
pub struct DrivenNet {
    pub net: Name,
    pub load: Af,
    pub fanout: u64,
}

/// A node of a path with its arrival in fs, the delay of the arc into it (none at the start), its slew, and the net that it drives
/// (none at a sink, or on no net).
#[derive(Drop)]
pub struct PathStage {
    pub pin: Name,
    pub tran: Tran,
    pub time: Fs,
    pub delay: Option<Fs>,
    pub slew: Option<Fs>,
    pub drives: Option<DrivenNet>,
}

/// Which test a required time has.
#[derive(Clone, Copy, Drop)]
pub enum TestSort {
    SetupTime,
    HoldTime,
    OutputDelay,
}

/// The parts of a required time in fs, signed as they add up to it: separation of launch and capture edge, arrival of the capture
/// clock, time of the test, uncertainty, credit; then the required time, the arrival of the data, and the slack.
#[derive(Drop)]
pub struct RequiredParts {
    pub separation: Fs,
    pub clock: Fs,
    pub sort: TestSort,
    pub test: Fs,
    pub uncertainty: Fs,
    pub credit: Fs,
    pub required: Fs,
    pub arrival: Fs,
    pub slack: Fs,
}

/// A path stage by stage, the stages of its capture clock, and the parts of its required time.
#[derive(Drop)]
pub struct TimedPath {
    pub path: Path,
    pub stages: Items<PathStage>,
    pub capture: Items<PathStage>,
    pub parts: RequiredParts,
}

/// How many endpoints fail, and these from the least slack on, at most 10,000.
#[derive(Drop)]
pub struct FailingEndpoints {
    pub count: u64,
    pub rows: Items<EndRow>,
}

/// What a clock (its place in the list of clocks) captures: endpoints, those that fail, worst slack and total negative slack in fs.
#[derive(Drop)]
pub struct ClockSummary {
    pub clock: u32,
    pub tested: u64,
    pub failing: u64,
    pub wns: Option<Fs>,
    pub tns: Fs,
}

/// The totals by clock, and the count of endpoints to which no path is tested.
#[derive(Drop)]
pub struct TimingSummary {
    pub clocks: Items<ClockSummary>,
    pub untested: u64,
}

/// The skew of a launch edge in fs: the greatest late less the least early arrival at the clock pins of registers.
#[derive(Drop)]
pub struct SkewReport {
    pub clock: u32,
    pub tran: Tran,
    pub skew: Fs,
    pub late: PathNode,
    pub early: PathNode,
}

/// Worst slack and total negative slack of both kinds in fs.
#[derive(Clone, Copy, Drop)]
pub struct SlackTotals {
    pub setup_wns: Option<Fs>,
    pub setup_tns: Fs,
    pub hold_wns: Option<Fs>,
    pub hold_tns: Fs,
}

/// A resize that improves, and the totals with it.
#[derive(Drop)]
pub struct SizeAdvice {
    pub inst: Name,
    pub cell: Name,
    pub after: SlackTotals,
}

/// The totals now, how many resizes were tried and refused, and the best of those that improve.
#[derive(Drop)]
pub struct AdviceReport {
    pub now: SlackTotals,
    pub tried: u64,
    pub refused: u64,
    pub rows: Items<SizeAdvice>,
}

/// The answer to a question that closing timing needs.
#[derive(Drop)]
pub enum ClosingReport {
    Net(NetReport),
    Instance(InstanceReport),
    Sizes(SizesReport),
    Timing(Option<TimedPath>),
    WorstPaths(Items<Path>),
    Failing(FailingEndpoints),
    Summary(TimingSummary),
    Skew(Items<SkewReport>),
    Advices(AdviceReport),
}
