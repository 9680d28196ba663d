//! Copies of questions, each equal to what it was made of.

ghost use Rattle.std.specs.Prelude.{◌≡◌, IfOk};
ghost use Rattle.timing_defs.specs.declared.reports.Query.TheVariants.{Through};

use crate::items::Items;
use crate::kinds::Kind;
use crate::names::Name;
use crate::reports::{Candidate, Query, Trial};
use sta_units::{Again, Memory};
use std::alloc::Global;

impl Again for Candidate {
    fn again(&self, alloc: Global) -> Result<Candidate, Memory> {
        Ok(Candidate {
            inst: self.inst.again(alloc)?,
            cell: self.cell.again(alloc)?,
        })
    }
}

/// Copies a question.
#[cycle(question)]
fn query_again(alloc: Global, query: &Query) -> Result<Query, Memory>
    ensures copied { IfOk result (λ copy. copy ≡ query.now) }
{
    Ok(match query {
        Query::Slew { pin, split, tran } => Query::Slew {
            pin: pin.again(alloc)?,
            split: *split,
            tran: *tran,
        },
        Query::At { pin, split, tran } => Query::At {
            pin: pin.again(alloc)?,
            split: *split,
            tran: *tran,
        },
        Query::Rat { pin, split, tran } => Query::Rat {
            pin: pin.again(alloc)?,
            split: *split,
            tran: *tran,
        },
        Query::Slack { pin, split, tran } => Query::Slack {
            pin: pin.again(alloc)?,
            split: *split,
            tran: *tran,
        },
        Query::Endpoint { pin, kind } => Query::Endpoint {
            pin: pin.again(alloc)?,
            kind: *kind,
        },
        Query::WorstPath { pin, kind } => Query::WorstPath {
            pin: pin.again(alloc)?,
            kind: *kind,
        },
        Query::Wns { kind } => Query::Wns { kind: *kind },
        Query::Tns { kind } => Query::Tns { kind: *kind },
        Query::Worst { kind, count } => Query::Worst {
            kind: *kind,
            count: *count,
        },
        Query::Through { pin, kind, pins } => through_again(alloc, pin, *kind, pins)?,
        Query::Paths { pin, kind, count } => Query::Paths {
            pin: pin.again(alloc)?,
            kind: *kind,
            count: *count,
        },
        Query::WhatIf { items } => Query::WhatIf {
            items: trials_again(alloc, items)?,
        },
        Query::Advise { kind, candidates } => Query::Advise {
            kind: *kind,
            candidates: candidates.again(alloc)?,
        },
        Query::Closing { query } => Query::Closing {
            query: query.again(alloc)?,
        },
    })
}

/// Copies the question about paths through pins.
fn through_again(alloc: Global, pin: &Name, kind: Kind, pins: &Items<Name>) -> Result<Query, Memory>
    ensures copied { IfOk result (λ copy. copy ≡ Through pin.now kind pins.now) }
{
    Ok(Query::Through {
        pin: pin.again(alloc)?,
        kind,
        pins: pins.again(alloc)?,
    })
}

/// Copies the trials on a draft.
#[cycle(question)]
fn trials_again(alloc: Global, items: &Items<Trial>) -> Result<Items<Trial>, Memory>
    ensures copied { IfOk result (λ copy. copy ≡ items.now) }
{
    let mut copies = Items::with_room(alloc, items.len())?;
    for item in items.as_slice() {
        copies.push(trial_again(alloc, item)?)?;
    }
    Ok(copies)
}

/// Copies a trial on a draft.
#[cycle(question)]
fn trial_again(alloc: Global, trial: &Trial) -> Result<Trial, Memory>
    ensures copied { IfOk result (λ copy. copy ≡ trial.now) }
{
    Ok(match trial {
        Trial::Try(eco) => Trial::Try(eco.again(alloc)?),
        Trial::Drop => Trial::Drop,
        Trial::Ask(query) => Trial::Ask(query_again(alloc, query)?),
    })
}

impl Again for Query {
    fn again(&self, alloc: Global) -> Result<Query, Memory> {
        query_again(alloc, self)
    }
}
