//! The arcs from pin to pin.

ghost use Rattle.std.specs.Prelude.{◌≡◌, ◌++◌, ◌<◌, map, length, IfOk, OnOk};
ghost use Rattle.std.specs.Option.{option_to_list};
ghost use Rattle.pin_graph.specs.Joins.{befores, link_into, net_links, link_from, link_of, pin_arcs, pin_links};

use crate::pin_arcs::PinArc;
use levelizer::Link;
use netlist_store::Store;
use sta_units::Memory;
use std::alloc::Global;
use timing_defs::Items;

/// Adds the net arc into a pin, where there is one.
fn add_net_link(
    links: &mut Items<Link>,
    store: &Store,
    table: &[Option<u32>],
    pin: u32,
) -> Result<(), Memory>
    requires pin { pin < length store.now.pins }
    requires table { table.now ≡ befores store.now }
    ensures { OnOk result (links.new ≡ links.old ++ option_to_list (link_into store.now pin)) }
{
    match table[pin as usize] {
        Some(from) => links.push(Link { from, to: pin }),
        None => Ok(()),
    }
}

/// The arcs of nets.
#[tactic(auto, using(crate::proofs::ArcLaws::mapped_numbers_more))]
pub(crate) fn net_links(
    alloc: Global,
    store: &Store,
    table: &[Option<u32>],
) -> Result<Items<Link>, Memory>
    requires { table.now ≡ befores store.now }
    ensures { IfOk result (λ links. links ≡ net_links store.now) }
{
    let mut links = Items::new(alloc);
    for pin in 0..store.pin_bound() {
        add_net_link(&mut links, store, table, pin)?;
    }
    Ok(links)
}

/// The arcs of nets and of cells, from pin to pin. Takes as many steps as there are.
pub(crate) fn pin_links(
    alloc: Global,
    store: &Store,
    table: &[Option<u32>],
    arcs: &[PinArc],
) -> Result<Items<Link>, Memory>
    requires table { table.now ≡ befores store.now }
    requires arcs { arcs.now ≡ pin_arcs store.now }
    ensures { IfOk result (λ links. links ≡ pin_links store.now) }
{
    let mut links = net_links(alloc, store, table)?;
    for arc in arcs {
        links.push(Link {
            from: arc.from,
            to: arc.to,
        })?;
    }
    Ok(links)
}
