//! The design as a store: instances, nets and pins by numbers, and copies that share what neither
//! changes. `Store::of` makes a store of a linked design, and `Store::apply` a new one of an ECO.
//!
//! # What a store keeps
//!
//! Contracts see a `Stored`: the design, and for each kind (instances, nets, pins) the list of the
//! names that its numbers stand for, with gaps. A number stands for the same name as long as the
//! name is there, in a base and in all stores that edits make of it; so what is kept by numbers
//! elsewhere (a graph, rows of arrivals) stays right for all that an edit does not touch.
//!
//! - `Frame`: libraries, ports and constraints, which no edit changes, behind one `Arc`. `Cells` is
//!   a library with an `IndexMap` from names to places.
//! - `Numbering`, one for each kind: the name of each number, in a `CowTable`, and a `NameMap` back.
//!   A `NameMap` is an `IndexMap` cut into 131,101 shards by a hash of the name. Versions share the
//!   shards, and an edit copies the few that it changes; a resize copies none. A number whose
//!   name goes waits until the ECO ends, and a name that comes back within it gets its old number:
//!   thus a number of the base never stands for another name in the edited store. Then the number
//!   is a gap, which holds the next one, so numbers are used again at constant cost.
//! - `insts`, `rcs`, `net_pins`, `pins`: by numbers, what is known of each. `insts` and `rcs` hold
//!   the `Inst` and the `NetRc` of the design; beside an `Inst` stand the places of its cell in the
//!   tables of the libraries, where the cell is looked for first. `net_pins` lists the pins on a net. `pins` has the
//!   owner, the net and the direction of each pin. Rows are held by `Arc`, so the copy of a chunk
//!   of 64 rows that a write costs is 64 counts.
//! - `Roll`, one for instances, nets and parasitics: the numbers in the order of the design's lists.
//!   A new one stands last, and one that goes leaves an empty place, found through the number's
//!   place. The order is apart from the numbers, so that numbers can be used again while new
//!   instances stand last.
//!
//! The design's lists are what the tables have at the numbers of the rolls, in order:
//! `insts = filter_map (at insts) inst_order`, `nets = filter_map (name_at net_names) net_order`,
//! `rcs = filter_map (at rcs) rc_order`. The invariant is `AreTables` in `specs/Stores`: each table
//! tells what the design has at that number by its name, the orders have the numbers in use, the
//! numbers are those of the design, and the design stays linked.
//!
//! # How a store is made
//!
//! `building` makes the tables of a design in one pass each. The number of an instance, a net or a pin
//! is its place in the design: pins in the order of the ports, then of the instances and, within one,
//! of its cell. A net's pins are found by one pass over the rows of the pins.
//!
//! # How a store is edited
//!
//! `ecos` goes over the edits of an ECO: `edit_checks` finds the first fault of an edit, `touched`
//! adds what it touches, and `edit_steps` makes the store after it. Each effect is a function of a
//! store by value, whose contract says what the whole design and the numbers are afterwards:
//! `rc_edits`, `net_edits`, `join_edits` (a pin joins a net, or leaves it), `gate_edits`,
//! `gate_removals`, `cell_edits` and `buffer_edits`. A buffer is a net that comes, sinks that join it,
//! a gate that comes, and its two pins that join nets. `proofs/Sound` says what the tables keep name
//! by name; an effect proves that of the tables that it writes, and the invariant follows.
//!
//! # Costs
//!
//! A store is made in time of the design's pins, nets and parasitics; but each name that comes copies
//! its shard, which has one name in 131,101 (some 2 of 200,000 pins).
//! Each look-up is one or two steps (a hash of the name, or a place in a table) and takes no memory;
//! `net_pins` gives a slice. A copy of a store shares all pages: one count for each 4,096 rows. An
//! edit of an instance or a net makes its row anew, in time of its connections; nothing goes over
//! the design.
#![tactic(auto)]

mod agreement;
mod buffer_edits;
mod building;
mod cell_edits;
mod cell_pins;
mod cells;
mod checks;
mod conn_edits;
mod ecos;
mod edit_checks;
mod edit_steps;
mod gate_edits;
mod gate_removals;
mod inst_rows;
mod join_edits;
mod links;
mod name_maps;
mod net_edits;
mod net_lists;
mod numberings;
mod pin_edits;
mod pin_tables;
mod pin_words;
mod rc_edits;
mod rolls;
mod row_edits;
mod sinks;
mod stores;
mod tables;
mod touched;
mod words;

pub use agreement::cells_agree;
pub use building::full_name;
pub use stores::Store;
pub use touched::Touched;
