//! How late, and how early, the paths that an ECO changes arrive at the nodes behind it, in the base or in
//! the edited design.
//!
//! An ECO leaves the start of a path where it is no seed, and a step of it where the step leads to no seed
//! and has one delay in both designs (`steps_left`). `carried_times` finds for each node behind the seeds a
//! time in each split that bounds all paths to it with a start or a step that is not left: in neither
//! design do they arrive later than the late one or earlier than the early one. All other paths are in both
//! designs, of one length. So an endpoint whose tests are left keeps its slack where the paths behind these
//! times would leave more.
//!
//! The nodes are walked over in the order of their levels (`ordering`, `walking`). A seed's times are its
//! outermost arrivals in both designs; another node's are the outermost of those behind the arcs into it
//! (`steps`): by the arrivals before the arc where its delay is another in each design, and by the times
//! carried there where it is the same.
//!
//! Times are in fs, of all launch edges together: a node has one in a split. They are bounds: some are no
//! arrival of any path. Nodes go by their numbers in the edited graph; one of the base that is gone has no
//! number and no times here. Where times lie too far from 0 to be added nothing is found, and no slack is
//! known to stay.
//!
//! Laws for callers: `carried_before` and `carried_after` (`TimesCarried`) tell that the times bound the
//! paths of the base and of the edited design, `agreed_left` (`Unseeded`) that both designs have what the
//! ECO leaves, and `kept_end` (`KeptEnds`) which endpoints' tests are left.
#![tactic(auto)]

mod carried;
mod ordering;
mod steps;
mod walking;

pub use carried::Carried;
pub use walking::{CarriedTimes, carried_times};
