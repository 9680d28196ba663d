//! How a session keeps the journal that it shares with others.

use crate::shared::Shared;
use live_doors::Keeper;
use live_journal::{Receipt, Room, Unkept, keep_shared};
use live_session::{Keeping, Untold};
use sta_outside::Sink;
use std::alloc::Global;
use std::sync::Wait;
use timing_defs::Design;

/// What a session keeps the journal with: what it shares with the others, and its receipt.
#[derive(Drop)]
pub(crate) struct JournalKeeper<'a, H, F: Sink + Drop, G, B: Room<Design>> {
    pub(crate) shared: &'a Shared<'a, H, F, G, B>,
    pub(crate) receipt: Receipt<B>,
}

impl<H, F: Sink + Drop, G, B: Room<Design>> Keeper for JournalKeeper<'_, H, F, G, B> {
    ghost safe = { λ keeper. keeper.receipt.upto };
}

impl<H: Wait, F: Sink + Drop, G, B: Room<Design>> Keeping for JournalKeeper<'_, H, F, G, B> {
    ghost use Rattle.std.specs.Prelude.{◌≡◌, []};

    ghost ran = { λ _ commands rows. (commands ≡ []) × (rows ≡ []) };

    ghost torn = { λ keeper. keeper.receipt.torn };

    fn keep(&mut self, alloc: Global, number: u64) -> Result<(), Untold> {
        let shared = self.shared;
        match keep_shared(
            shared.rt,
            alloc,
            shared.desk,
            shared.cell,
            shared.board,
            &mut self.receipt,
            number,
        ) {
            Ok(()) => Ok(()),
            Err(Unkept::Failed) => Err(Untold::Journal),
            Err(Unkept::Memory) => Err(Untold::Memory),
        }
    }
}
