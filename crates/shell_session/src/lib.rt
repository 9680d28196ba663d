//! A run of the server: sessions over the design of its documents, and the top call.
//!
//! The documents are linked and become the first version (`answers`), behind saved entries where the run goes on
//! from a saved journal (`continuing`); `sessions` answers each script in a thread of its own over the
//! board of versions, and closes it; `generating` does so for documents and scripts that are made; `serving` puts what a run ends with into
//! the sink.
#![tactic(auto)]

mod answers;
mod continuing;
mod discards;
mod generating;
mod serving;
mod sessions;

pub use serving::{Status, serve};
