//! Questions about a design's timing and their answers.

use crate::closing::{ClosingQuery, ClosingReport};
use crate::edge_times::EdgeTime;
use crate::edits::Eco;
use crate::faults::{Fault, QueryFault};
use crate::items::Items;
use crate::kinds::{Kind, Split, Tran};
use crate::names::Name;
use crate::rows::Path;
use sta_units::Fs;

/// A question: slew, arrivals, required times or graph slack of a node; slack or worst path of an
/// endpoint; worst slack, total negative slack or the worst endpoints (at most `count`) of a kind;
/// the worst path of an endpoint that passes the pins in order, or its worst paths (at most
/// `count`); what trials on a draft of the design answer; which resize is the best; a question that
/// closing timing needs.
#[derive(Drop)]
#[cycle(question)]
pub enum Query {
    Slew {
        pin: Name,
        split: Split,
        tran: Tran,
    },
    At {
        pin: Name,
        split: Split,
        tran: Tran,
    },
    Rat {
        pin: Name,
        split: Split,
        tran: Tran,
    },
    Slack {
        pin: Name,
        split: Split,
        tran: Tran,
    },
    Endpoint {
        pin: Name,
        kind: Kind,
    },
    WorstPath {
        pin: Name,
        kind: Kind,
    },
    Wns {
        kind: Kind,
    },
    Tns {
        kind: Kind,
    },
    Worst {
        kind: Kind,
        count: u32,
    },
    Through {
        pin: Name,
        kind: Kind,
        pins: Items<Name>,
    },
    Paths {
        pin: Name,
        kind: Kind,
        count: u32,
    },
    WhatIf {
        items: Items<Trial>,
    },
    Advise {
        kind: Kind,
        candidates: Items<Candidate>,
    },
    Closing {
        query: ClosingQuery,
    },
}

/// A trial on a draft: edits are tried, the last accepted ones are dropped, or the draft is asked.
#[derive(Drop)]
#[cycle(question)]
pub enum Trial {
    Try(Eco),
    Drop,
    Ask(Query),
}

/// A resize that may be advised: the instance, and the cell that it would become.
#[derive(Drop)]
pub struct Candidate {
    pub inst: Name,
    pub cell: Name,
}

/// An endpoint with its slack in fs.
#[derive(Drop)]
pub struct EndRow {
    pub pin: Name,
    pub slack: Fs,
}

/// The advised resize, and the worst slack in fs with it.
#[derive(Drop)]
pub struct Advice {
    pub inst: Name,
    pub cell: Name,
    pub wns: Fs,
}

/// The answer to a question: one time in fs or none, times per launch edge, a path or none,
/// endpoints from the least slack on, paths from the worst on, the rows of a draft, an advice or
/// none, or what closing timing needs.
#[derive(Drop)]
#[cycle(answer)]
pub enum Report {
    Value(Option<Fs>),
    Times(Items<EdgeTime>),
    Shown(Option<Path>),
    Ends(Items<EndRow>),
    Paths(Items<Path>),
    Drafted(Items<TrialRow>),
    Advised(Option<Advice>),
    Closing(ClosingReport),
}

/// The row of a trial: the question where it asks, and the answer.
#[derive(Drop)]
#[cycle(answer)]
pub struct TrialRow {
    pub query: Option<Query>,
    pub answer: TrialAnswer,
}

/// The answer to a trial: the edits were accepted (`Tried`) or refused, the last ones were dropped or
/// there were none, or a question has no answer or one.
#[derive(Drop)]
#[cycle(answer)]
pub enum TrialAnswer {
    Tried,
    Refused(Fault),
    Dropped,
    NoDraft,
    No(QueryFault),
    Told(Report),
}
