//! The reader: the module of a text, or its least fault.

ghost use Rattle.std.specs.Prelude.{◌≡◌, ◌++◌, [], true, is_some, Some, None, IfOk, MatchResult};
ghost use Rattle.std.specs.Option.{option_to_list};
ghost use Rattle.timing_defs.specs.Documents.{IsNetlist};
ghost use Rattle.sta_text.specs.Faults.{least_from, Fails};
ghost use Rattle.verilog_netlist.specs.Grammar.{events_of};
ghost use Rattle.verilog_netlist.specs.Faults.{stops, early_faults, declaration_faults, nothing, undeclared_bits, net_excess, net_faults, whole_vectors, whole_faults, faults_of, all_declared, all_nets, all_vectors};
ghost use Rattle.verilog_netlist.specs.Modules.{module_of, module_nets};

use crate::body::events_of;
use crate::checks::{
    all_vectors, header_doubles, instance_doubles, instance_excess, pin_doubles, strays,
    undirected, whole_vectors, wrongs,
};
use crate::declarations::{Declarations, all_nets, declared_nets, undeclared_bits};
use crate::events::Event;
use crate::few::FewNames;
use crate::known::Declared;
use crate::modules::module_of;
use crate::nets::NetSet;
use sta_text::{Wrong, lesser};
use sta_units::Memory;
use std::alloc::Global;
use timing_defs::{Module, ReadFault};

/// The least fault, or all nets where there is none.
#[derive(Drop)]
struct Checked {
    fault: Option<Wrong>,
    nets: NetSet,
}

/// The least of the faults that end the reading.
#[tactic(auto, using(sta_text::proofs::FaultsLemmas::least_append))]
fn stops(alloc: Global, events: &[Event]) -> Result<Option<Wrong>, Memory>
    ensures { IfOk result (λ least. least ≡ least_from None (stops events.now)) }
{
    strays(alloc, events, wrongs(events, None))
}

/// Notes the fault of the declarations.
#[tactic(auto, unfolding(sta_text::specs::Faults::least_from))]
fn note_declared(found: Option<Wrong>, best: Option<Wrong>) -> Option<Wrong>
    ensures { result ≡ least_from best (option_to_list found) }
{
    match found {
        None => best,
        Some(wrong) => lesser(best, wrong),
    }
}

/// The least fault that stands between tokens that were read.
#[tactic(auto, using(crate::proofs::FaultLemmas::least_early))]
fn early(
    alloc: Global,
    events: &[Event],
    declared: Option<Wrong>,
    best: Option<Wrong>,
) -> Result<Option<Wrong>, Memory>
    requires { declaration_faults nothing events.now ≡ option_to_list declared }
    ensures { IfOk result (λ least. least ≡ least_from best (early_faults events.now)) }
{
    let headers = header_doubles(alloc, events, best)?;
    let declarations = note_declared(declared, headers);
    let instances = instance_doubles(alloc, events, declarations)?;
    pin_doubles(alloc, events, instance_excess(events, instances))
}

/// Checks what needs all declared nets.
#[tactic(auto, unfolding(sta_text::specs::Faults::least_from), using(sta_text::proofs::FaultsLemmas::least_append))]
fn check_nets(
    alloc: Global,
    events: &[Event],
    declared: &Declared<'_>,
    best: Option<Wrong>,
) -> Result<Checked, Memory>
    ensures fault { IfOk result
        (λ checked. checked.fault
        ≡ least_from best
        (undeclared_bits declared.now events.now ++ net_excess declared.now
        (all_vectors [] events.now) [] events.now)) }
    ensures nets { IfOk result
        (λ checked. net_excess declared.now (all_vectors [] events.now) [] events.now ≡ []
        → checked.nets ≡ all_nets declared.now (all_vectors [] events.now) [] events.now) }
{
    let bits = undeclared_bits(alloc, declared, events, best)?;
    let vectors = all_vectors(alloc, events)?;
    let nets = all_nets(alloc, declared, &vectors, events);
    drop(vectors);
    match nets? {
        Ok(nets) => Ok(Checked { fault: bits, nets }),
        Err(wrong) => Ok(Checked {
            fault: lesser(bits, wrong),
            nets: NetSet::new(alloc),
        }),
    }
}

/// Checks what needs the whole text.
#[tactic(auto, using(crate::proofs::FaultLemmas::least_whole, crate::proofs::FaultLemmas::no_excess))]
fn check_whole(
    alloc: Global,
    events: &[Event],
    declared: &Declared<'_>,
    best: Option<Wrong>,
) -> Result<Checked, Memory>
    requires { declared.now ≡ all_declared [] events.now }
    ensures fault { IfOk result
        (λ checked. checked.fault ≡ least_from best (whole_faults events.now)) }
    ensures nets { IfOk result
        (λ checked. net_faults events.now ≡ [] → checked.nets ≡ module_nets events.now) }
{
    let vectors = whole_vectors(all_vectors(alloc, events)?, events, best)?;
    let ports = undirected(alloc, events, vectors)?;
    check_nets(alloc, events, declared, ports)
}

/// Checks a text of which the grammar does not accept all.
fn check_broken(alloc: Global, events: &[Event], best: Option<Wrong>) -> Result<Checked, Memory>
    ensures { IfOk result
        (λ checked. checked.fault ≡ least_from best (whole_vectors [] events.now)) }
{
    Ok(Checked {
        fault: whole_vectors(FewNames::new(alloc), events, best)?,
        nets: NetSet::new(alloc),
    })
}

/// Checks what is left, where these are the least fault that ends the reading, and with those between tokens.
#[tactic(auto, using(crate::proofs::FaultLemmas::least_accepted, crate::proofs::FaultLemmas::least_broken, crate::proofs::FaultLemmas::stop_none, crate::proofs::FaultLemmas::no_net_fault))]
fn check_rest(
    alloc: Global,
    events: &[Event],
    declared: &Declared<'_>,
    stop: Option<Wrong>,
    best: Option<Wrong>,
) -> Result<Checked, Memory>
    requires declared { declared.now ≡ all_declared [] events.now }
    requires stop { stop ≡ least_from None (stops events.now) }
    requires best { best ≡ least_from stop (early_faults events.now) }
    ensures fault { IfOk result
        (λ checked. checked.fault ≡ least_from None (faults_of events.now)) }
    ensures nets { IfOk result
        (λ checked. faults_of events.now ≡ [] → checked.nets ≡ module_nets events.now) }
{
    match stop {
        Some(_) => check_broken(alloc, events, best),
        None => check_whole(alloc, events, declared, best),
    }
}

/// Checks a text.
fn check(alloc: Global, events: &[Event]) -> Result<Checked, Memory>
    ensures fault { IfOk result
        (λ checked. checked.fault ≡ least_from None (faults_of events.now)) }
    ensures nets { IfOk result
        (λ checked. faults_of events.now ≡ [] → checked.nets ≡ module_nets events.now) }
{
    let stop = stops(alloc, events)?;
    let Declarations { fault, nets } = declared_nets(alloc, events)?;
    let checked = match early(alloc, events, fault, stop) {
        Ok(best) => check_rest(alloc, events, &nets, stop, best),
        Err(wanting) => Err(wanting),
    };
    drop(nets);
    checked
}

/// The module of a text, or its least fault.
#[tactic(auto, using(sta_text::proofs::FaultsLemmas::least_none, crate::proofs::FaultLemmas::is_named))]
fn whole_module(alloc: Global, bytes: &[u8]) -> Result<Module, ReadFault>
    ensures { MatchResult result
        (λ m. (faults_of (events_of bytes.now) ≡ []) × (module_of (events_of bytes.now) ≡ Some m))
        (λ e. Fails e (faults_of (events_of bytes.now))) }
{
    let events = events_of(alloc, bytes)?;
    match check(alloc, events.as_slice()) {
        Ok(Checked { fault, nets }) => match fault {
            Some(wrong) => {
                drop(events);
                drop(nets);
                Err(wrong.told())
            }
            None => Ok(module_of(alloc, events, nets)?),
        },
        Err(wanting) => {
            drop(events);
            Err(ReadFault::from(wanting))
        }
    }
}

/// The module that a structural netlist writes (a subset of IEEE 1364).
///
/// A text is `module NAME ( ports ) ;`, items and `endmodule`. Ports are names, or declarations with
/// `input` or `output`, perhaps `wire`, perhaps a range. Items are lists of names behind `input`,
/// `output` or `wire`, perhaps with a range `[first:last]`, and instances
/// `CELL NAME ( .PIN(net), .. ) ;`. A net is a name, a bit `a[3]`, a constant `1'b0`, `1'b1`, `1'h0`
/// or `1'h1`, or nothing. Constants and nothing tie the pin. The bits of a vector are nets and ports
/// of their own, `a[first]` to `a[last]`. A name alone that is not declared is a net. Ports are in
/// the order in which the text gives them their directions, nets and instances in that of the text.
/// Ports, instances, nets and the pins of an instance have distinct names, those of ports without a
/// colon, and the nets hold all ports and all that is connected.
///
/// # Errors
///
/// The fault of least offset, and at one offset the one of lowest code:
/// - `V1`: a token that does not fit, or a direction for a name that the header does not have;
/// - `V2`: a construct that is left out (`assign`, `inout`, parameters, behaviour, supplies, part
///   selects, concatenations, connections by position, a port name with a colon), a whole vector on
///   a pin, or a second module;
/// - `V3`: a bit that no declaration has, or a port of the header without a direction;
/// - `V4`: a port, wire, instance or connected pin twice;
/// - `V5`: no module;
/// - `V6`: more than 200,000 nets or instances.
///
/// What needs the whole text counts only where the grammar accepts all of it. Want of memory may
/// come at any time. It reads the bytes once, in linear time.
pub fn read_module(alloc: Global, bytes: &[u8]) -> Result<Module, ReadFault>
    ensures value { MatchResult result
        (λ m. (faults_of (events_of bytes.now) ≡ []) × (module_of (events_of bytes.now) ≡ Some m))
        (λ e. Fails e (faults_of (events_of bytes.now))) }
    ensures kept { IfOk result IsNetlist }
{
    whole_module(alloc, bytes)
}
