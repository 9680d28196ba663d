//! The worst paths of the design over all endpoints, in order.
//!
//! The worst path of an endpoint has the endpoint's slack. So endpoints are gone through in the
//! order of their slacks (`worst`), the worst paths of each are found (`path_ranking`) and put
//! among the worst so far (`kept`) in the order of paths (`comparing`), until an endpoint's slack
//! is above those of all that are kept.
#![tactic(auto)]

mod comparing;
mod kept;
mod worst;

pub use worst::worst_paths;
