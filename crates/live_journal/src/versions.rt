//! Versions of a design, whose entries are kept in blocks of one entry each.

ghost use Rattle.eco_journal.specs.Blocks.{blocks_text};
ghost use Rattle.live_journal.specs.Desk.{single};

use crate::blocks::single_blocks;
use crate::saving::Saves;
use session_engine::Version;
use sta_units::Memory;
use std::alloc::Global;
use timing_defs::Derates;
use version_board::Stands;

impl Saves for Version {
    ghost use Rattle.std.specs.Prelude.{refl};
    ghost use Rattle.live_journal.specs.Joins.{single_joins};

    ghost text = { λ derates from entries. blocks_text derates from (single entries) };

    fn text_from(&self, alloc: Global, derates: &Derates, from: u64) -> Result<Vec<u8>, Memory> {
        match self.entries(alloc) {
            Ok(entries) => {
                let known = (from - self.first()) as usize;
                let text = single_blocks(alloc, derates, from, &entries.as_slice()[known..]);
                drop(entries);
                text
            }
            Err(Memory) => Err(Memory),
        }
    }

    ghost none = { λ d n. refl };

    ghost joins = { single_joins };
}
