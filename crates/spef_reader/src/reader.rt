//! The reader: the parasitics of a text, or its least fault.

ghost use Rattle.std.specs.Prelude.{◌≡◌, [], true, MatchResult, IfOk};
ghost use Rattle.timing_defs.specs.Documents.{are_parasitics};
ghost use Rattle.sta_text.specs.Faults.{Fails};
ghost use Rattle.spef_reader.specs.Grammar.{events_of};
ghost use Rattle.spef_reader.specs.Faults.{faults_of};
ghost use Rattle.spef_reader.specs.Parasitics.{parasitics_of};

use crate::checks::least_fault;
use crate::parasitics::parasitics_of;
use crate::sections::events_of;
use std::alloc::Global;
use timing_defs::{Parasitics, ReadFault};

/// The parasitics of nets that a SPEF text writes (a subset of IEEE 1481).
///
/// A text is `*SPEF "version"`, a header, and sections: a name map, passed-over lists of ports and
/// supplies, and nets `*D_NET NAME TOTAL .. *END` with `*CONN`, `*CAP` and `*RES`, each optional
/// and in this order. In a passed-over list a word that begins with `*` is a name by its index or
/// one of `*C`, `*L`, `*S` and `*D`. Names may be given by an index `*n`; a backslash before a mark
/// stands for the mark, and the marks of buses read as `[` and `]`. A node is a port, an instance
/// and its pin, which is named `instance:pin` whatever the text's delimiter is, or the net and a
/// number below 2^32. Values are rounded once, to aF and mΩ; of a triplet the second counts. A
/// capacitance between two nodes counts to ground at the first of them that is a node of the net. A
/// net without resistances is lumped: `lump` is the sum of its capacitances, or its total where it
/// has none. Each net is given once, and all values lie from 0 to 10^12.
///
/// # Errors
///
/// The fault of least offset, and at one offset the one of lowest code:
/// - `P1`: a token that does not fit, or a header without delimiter or units;
/// - `P2`: an index that is not in the name map, or a capacitance between two nodes of which none is
///   of the net;
/// - `P3`: a construct that is left out (`*R_NET`, `*D_PNET`, `*R_PNET`, `*DEFINE`, `*PDEFINE`,
///   `*VARIATION_PARAMETERS`, `*INDUC`, `*SC`);
/// - `P4`: a value that is no decimal, too long, negative or above 10^12, or a sum above 10^12, which
///   stands at the net's `*D_NET`;
/// - `P5`: a net twice.
///
/// Want of memory may come at any time. It reads the bytes once, in linear time.
#[tactic(auto, using(sta_text::proofs::FaultsLemmas::least_none, crate::proofs::KeptLaws::good))]
pub fn read_parasitics(alloc: Global, bytes: &[u8]) -> Result<Parasitics, ReadFault>
    ensures value { MatchResult result
        (λ p. (faults_of (events_of bytes.now) ≡ []) × (p ≡ parasitics_of (events_of bytes.now)))
        (λ e. Fails e (faults_of (events_of bytes.now))) }
    ensures kept { IfOk result (λ p. are_parasitics p.nets ≡ true) }
{
    let events = events_of(alloc, bytes)?;
    match least_fault(alloc, events.as_slice())? {
        Some(wrong) => Err(wrong.told()),
        None => Ok(parasitics_of(alloc, events.as_slice())?),
    }
}
