//! Where a version comes from.

ghost use Rattle.std.specs.Prelude.{◌≡◌, ◌+◌, ◌<◌, ◌^◌, [], ◌∷◌, ◌++◌, length, IfOk, OnOk};
ghost use Rattle.std.specs.Arc.{arc_value};
ghost use Rattle.session_engine.specs.Versions.{entry_of};

use cow_table::CowTable;
use netlist_store::Store;
use sta_units::{Again, Memory};
use std::alloc::Global;
use std::sync::Arc;
use timing_defs::{Eco, Entry, Items};

/// The number of the origin, the origin, and the accepted ECOs since, in order. Versions share the origin
/// and the entries.
#[derive(Drop)]
pub(crate) struct History {
    pub(crate) first: u64,
    pub(crate) origin: Arc<Store>,
    pub(crate) journal: CowTable<Entry>,
}

/// The most entries of a journal.
const MOST: usize = 1 << 62;

/// The entry of a session's ECO.
fn entry_of(alloc: Global, who: u32, eco: &Eco) -> Result<Entry, Memory>
    ensures { IfOk result (λ entry. entry ≡ entry_of who eco.now) }
{
    Ok(Entry {
        session: who,
        eco: eco.again(alloc)?,
    })
}

/// The journal with one entry more; the journal stays. It has room for one where it has fewer than `2^62`.
fn longer(
    alloc: Global,
    journal: &CowTable<Entry>,
    who: u32,
    eco: &Eco,
) -> Result<CowTable<Entry>, Memory>
    ensures grown { IfOk result (λ longer. longer ≡ journal.now ++ entry_of who eco.now ∷ []) }
    ensures room { OnOk result (length journal.now < 2 ^ 62) }
{
    if journal.len() >= MOST {
        return Err(Memory);
    }
    let entry = entry_of(alloc, who, eco)?;
    let mut more = journal.copy()?;
    more.push(entry)?;
    Ok(more)
}

/// The entries of a journal, copied.
pub(crate) fn listed(alloc: Global, journal: &CowTable<Entry>) -> Result<Items<Entry>, Memory>
    ensures { IfOk result (λ entries. entries ≡ journal.now) }
{
    let mut entries = Items::with_room(alloc, journal.len())?;
    for at in 0..journal.len() {
        entries.push(journal.get(at).again(alloc)?)?;
    }
    Ok(entries)
}

impl History {
    /// The history of a version without entries.
    pub(crate) fn of(alloc: Global, first: u64, origin: &Arc<Store>) -> Result<History, Memory>
        ensures first { IfOk result (λ h. h.first ≡ first) }
        ensures origin { IfOk result (λ h. arc_value h.origin ≡ arc_value origin.now) }
        ensures journal { IfOk result (λ h. h.journal ≡ []) }
    {
        let origin = origin.clone()?;
        Ok(History {
            first,
            origin,
            journal: CowTable::new(alloc),
        })
    }

    /// The history with one entry more.
    pub(crate) fn with_entry(&self, alloc: Global, who: u32, eco: &Eco) -> Result<History, Memory>
        ensures first { IfOk result (λ h. h.first ≡ self.now.first) }
        ensures origin { IfOk result (λ h. arc_value h.origin ≡ arc_value self.now.origin) }
        ensures journal { IfOk result
            (λ h. h.journal ≡ self.now.journal ++ entry_of who eco.now ∷ []) }
        ensures room { OnOk result (length self.now.journal < 2 ^ 62) }
    {
        let journal = longer(alloc, &self.journal, who, eco)?;
        Ok(History {
            first: self.first,
            origin: self.origin.clone()?,
            journal,
        })
    }
}
