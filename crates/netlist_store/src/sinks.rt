//! The sinks that a buffer takes over: each on the net, and listed once.

ghost use Rattle.std.specs.Prelude.{◌≡◌, ◌&&◌, ◌++◌, ◌∷◌, [], true, false, not, IfOk, OnOk};
ghost use Rattle.std.specs.List.{list_all};
ghost use Rattle.std.specs.Option.{option_map_or};
ghost use Rattle.std.specs.Str.{bytes_eq};
ghost use Rattle.timing_defs.specs.declared.faults.Fault.TheVariants.{NotConnected};
ghost use Rattle.timing_defs.specs.Netlist.{is_listed};
ghost use Rattle.timing_defs.specs.Edits.{has_colon, word_net, sink_faults, first_fault, unless};
ghost use Rattle.netlist_store.specs.Applying.{IsChecked};

use crate::pin_words::word_net;
use crate::stores::Store;
use indexmap::IndexSet;
use sta_units::Memory;
use std::alloc::Global;
use timing_defs::{Fault, Name};

/// Whether the pin of a word that has a colon is on a net.
fn is_on(store: &Store, alloc: Global, net: &Name, word: &Name) -> Result<bool, Memory>
    requires { has_colon word.now ≡ true }
    ensures { IfOk result
        (λ on. on ≡ option_map_or (bytes_eq net.now) (word_net store.now.design word.now) false) }
{
    match word_net(store, alloc, word)? {
        Some(found) => Ok(net == found),
        None => Ok(false),
    }
}

/// Adds a name to a set; whether it was not there.
fn add_new(seen: &mut IndexSet<Name>, name: Name) -> Result<bool, Memory>
    ensures new { IfOk result (λ new. new ≡ not (is_listed seen.old.keys name)) }
    ensures keys { OnOk result
        (is_listed seen.old.keys name ≡ false → seen.new.keys ≡ seen.old.keys ++ name ∷ []) }
{
    match seen.insert(name) {
        Ok(new) => Ok(new),
        Err(_) => Err(Memory),
    }
}

/// Refuses a sink that is not on the net, or was listed before.
fn check_sink_on(
    store: &Store,
    alloc: Global,
    net: &Name,
    seen: &mut IndexSet<Name>,
    sink: &Name,
) -> Result<(), Fault>
    requires { has_colon sink.now ≡ true }
    ensures checked { IsChecked result
        (unless
        (option_map_or (bytes_eq net.now) (word_net store.now.design sink.now) false && not
        (is_listed seen.old.keys sink.now)) (NotConnected sink.now)) }
    ensures seen { OnOk result (seen.new.keys ≡ seen.old.keys ++ sink.now ∷ []) }
{
    if is_on(store, alloc, net, sink)? && add_new(seen, sink.copied(alloc)?)? {
        return Ok(());
    }
    Err(Fault::NotConnected(sink.copied(alloc)?))
}

/// Refuses the first sink that is not on the net, or was listed before.
pub(crate) fn check_sinks_on(
    store: &Store,
    alloc: Global,
    net: &Name,
    sinks: &[Name],
) -> Result<(), Fault>
    requires { list_all has_colon sinks.now ≡ true }
    ensures { IsChecked result (first_fault (sink_faults store.now.design net.now [] sinks.now)) }
{
    let mut seen = IndexSet::new(alloc);
    for sink in sinks {
        check_sink_on(store, alloc, net, &mut seen, sink)?;
    }
    Ok(())
}
