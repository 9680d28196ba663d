//! Times per launch edge.

ghost use Rattle.std.specs.Prelude.{◌≡◌, [], ◌∷◌, ◌++◌, ◌<◌, ◌↔◌, length, slice_get, IsTrue, IfOk, OnOk, OnErr, OnSome};
ghost use Rattle.std.specs.Option.{option_copied, option_map};
ghost use Rattle.timing_defs.specs.RowTimes.{time_on, edge_of};

use crate::kinds::Tran;
use smallvec::SmallVec;
use sta_units::{Fs, Memory};
use std::alloc::{AllocError, Global};
use std::marker::Model;

/// A launch edge: a clock's place in the list of clocks, from 0, and the transition of the clock.
#[derive(Clone, Copy, Drop)]
pub struct LaunchEdge {
    pub clock: u32,
    pub tran: Tran,
}

/// A time at one launch edge: the clock's place in the list of clocks, from 0, the transition of
/// the clock, and the time in fs, counted from the launch edge.
#[derive(Debug, Clone, Copy, PartialEq, Eq, Default, Drop)]
pub struct EdgeTime {
    pub clock: u32,
    pub tran: Tran,
    pub time: Fs,
}

/// The times of a node, one for each launch edge that has one, in the order of the clocks and rise
/// before fall. Up to two stand in place, more in a block of their own. Contracts see the list.
#[derive(Drop)]
pub struct EdgeTimes {
    times: SmallVec<EdgeTime, 2>,
}

impl Model for EdgeTimes {
    ghost use Rattle.std.specs.Prelude.{List};
    ghost use Rattle.timing_defs.specs.declared.edge_times.EdgeTime.{EdgeTime};

    ghost Value = { List EdgeTime };

    ghost view = { λ t. t.times.items };
}

impl EdgeTimes {
    /// The empty list. Takes no memory.
    pub fn new(alloc: Global) -> EdgeTimes
        ensures { result ≡ [] }
    {
        EdgeTimes {
            times: SmallVec::new(alloc),
        }
    }

    /// The list of a copy of these times.
    pub fn from_slice(alloc: Global, times: &[EdgeTime]) -> Result<EdgeTimes, Memory>
        ensures { IfOk result (λ copy. copy ≡ times.now) }
    {
        if times.is_empty() {
            return Ok(EdgeTimes::new(alloc));
        }
        Ok(EdgeTimes {
            times: SmallVec::from_slice(alloc, times)?,
        })
    }

    pub fn as_slice(&self) -> &[EdgeTime]
        ensures { result.now ≡ self.now }
    {
        self.times.as_slice()
    }

    pub fn len(&self) -> usize
        ensures { result ≡ length self.now }
    {
        self.times.len()
    }

    pub fn is_empty(&self) -> bool
        ensures { IsTrue result ↔ (self.now ≡ []) }
    {
        self.times.as_slice().is_empty()
    }

    /// The time at a place, from 0; none exactly where the list ends before it.
    pub fn get(&self, at: usize) -> Option<&EdgeTime>
        ensures value { option_copied result ≡ slice_get self.now at }
        ensures within { OnSome result (at < length self.now) }
    {
        self.times.as_slice().get(at)
    }

    /// The time on a launch edge; none where it has none.
    pub fn on(&self, edge: LaunchEdge) -> Option<Fs>
        ensures { option_map (λ time. time.0) result ≡ time_on self.now (edge_of edge) }
    {
        for time in self.as_slice() {
            if time.clock == edge.clock && time.tran.is(edge.tran) {
                return Some(time.time);
            }
        }
        None
    }

    /// Adds a time at the end. Where memory is wanting the list is as before.
    pub fn push(&mut self, time: EdgeTime) -> Result<(), Memory>
        ensures ok { OnOk result (self.new ≡ self.old ++ time ∷ []) }
        ensures err { OnErr result (self.new ≡ self.old) }
    {
        match self.times.push(time) {
            Ok(()) => Ok(()),
            Err(_) => Err(Memory),
        }
    }
}
