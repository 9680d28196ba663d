//! The documents of a run, fetched and read one after the other.

ghost use Rattle.std.specs.Prelude.{◌≡◌, ◌≤◌, ◌<◌, ◌+◌, ◌++◌, ◌∷◌, [], length, map, get_or, true, Some, IfOk, IfErr, MatchResult};
ghost use Rattle.std.specs.List.{All};
ghost use Rattle.timing_defs.specs.Documents.{is_library, are_constraints, are_parasitics, IsNetlist};
ghost use Rattle.sta_text.specs.Faults.{Fails};
ghost use Rattle.liberty_cells.specs.Faults.{faults_of, units_of_text};
ghost use Rattle.eco_journal.specs.Lines.{lines_of};
ghost use Rattle.script_reader.specs.Scripts.{outside, events};
ghost use Rattle.script_reader.specs.Scripts.{faults as line_faults};
ghost use Rattle.shell_core.specs.declared.documents.Role.TheVariants as role;
ghost use Rattle.shell_core.specs.declared.documents.Stop.TheVariants as cause;
ghost use Rattle.command_words.specs.Asked.{run_words};
ghost use Rattle.shell_core.specs.Scripts.{IsScript};
ghost use Rattle.shell_core.specs.Documents.{has_no_spef, name_of, Gives, kind_text, role_text, how_text, script_sources, sources, journal_faults, Stops, Says, SaysLibrary, SaysModule, SaysParasitics, SaysJournal, SaysScript, SayScripts, AreUnits, AreConstraints, AreParasitics, AreSaved, AreDocuments};
ghost use Rattle.shell_core.specs.Designs.{spef_sources, design_sources, fetched_journal, IsNoFault, AreDesign, IsFetched, IsReadDesign, DesignStops, AreEntriesOf, JournalStops};
ghost use Rattle.shell_core.specs.Kept.{AreReplayable, IsKeptDesign, AreKept};
ghost use Rattle.shell_core.specs.Reading.{AreRead};

use crate::discards::{
    discard_constraints, discard_entries, discard_journal, discard_library, discard_netlist,
    discard_saved, discard_scripts,
};
use command_words::Run;
use eco_journal::read_saved;
use liberty_cells::{read_library, units};
use script_reader::read_script;
use sdc_reader::read_constraints;
use spef_reader::read_parasitics;
use sta_outside::{Fetch, Shelf};
use sta_units::Memory;
use std::alloc::Global;
use timing_defs::{
    Code, Constraints, Derates, Entry, Items, Library, Module, Parasitics, ReadFault, Script, Units,
};
use verilog_netlist::read_module;

/// A document of a run. A script is that of the session of a number, from 1.
#[derive(Clone, Copy, Drop)]
pub enum Role {
    Early,
    Late,
    Netlist,
    Sdc,
    Spef,
    Journal,
    Session { number: usize },
}

/// Why the shelf did not give a document.
#[derive(Clone, Copy, Drop)]
pub enum How {
    Failed,
    Absent,
    TooLong,
}

/// Why the documents of a run were not read: one has a fault at a place, the shelf did not give one,
/// or want of memory.
#[derive(Clone, Copy, Drop)]
pub enum Stop {
    Refused(Role, Code, u64),
    Missing(Role, How),
    Memory,
}

/// The values of the documents of a run; the scripts are in the order of their names. Without a saved
/// journal there are no saved entries, not even an empty list.
#[derive(Drop)]
pub struct Documents {
    pub early: Library,
    pub late: Library,
    pub netlist: Module,
    pub sdc: Constraints,
    pub spef: Parasitics,
    pub saved: Option<Items<Entry>>,
    pub scripts: Items<Script>,
}

/// The values of the documents that a design is linked from.
#[derive(Drop)]
pub struct DesignDocuments {
    pub early: Library,
    pub late: Library,
    pub netlist: Module,
    pub sdc: Constraints,
    pub spef: Parasitics,
}

impl DesignDocuments {
    /// Gives the documents up.
    pub fn discard(self) {
        drop(self)
    }
}

/// The documents of a design, and the text of the saved journal that the words name: fetched, and not
/// yet read. Where they name none there is no text, not even an empty one.
#[derive(Drop)]
pub struct ReadDesign {
    pub design: DesignDocuments,
    pub journal: Option<Items<u8>>,
}

impl Role {
    /// How a document of its kind is called in a line of fault.
    fn kind(self) -> &'static str
        ensures { result.now ≡ kind_text self }
    {
        match self {
            Role::Early => "early",
            Role::Late => "late",
            Role::Netlist => "netlist",
            Role::Sdc => "sdc",
            Role::Spef => "spef",
            Role::Journal => "journal",
            Role::Session { .. } => "script",
        }
    }

    /// How the document is called in a line of fault: `early`, `late`, `netlist`, `sdc`, `spef`,
    /// `journal`, and `script1` for the script of the first session.
    ///
    /// # Errors
    ///
    /// Want of memory.
    pub fn label(self, alloc: Global) -> Result<Vec<u8>, Memory>
        ensures { IfOk result (λ text. text.items ≡ role_text self) }
    {
        let mut text = Vec::new(alloc);
        text.extend_from_slice(self.kind().as_bytes())?;
        if let Role::Session { number } = self {
            let digits = number.to_string(alloc)?;
            text.extend_from_slice(digits.as_bytes())?;
        }
        Ok(text)
    }
}

impl How {
    /// How the cause is called in a line of fault.
    pub fn label(self) -> &'static str
        ensures { result.now ≡ how_text self }
    {
        match self {
            How::Failed => "failed",
            How::Absent => "absent",
            How::TooLong => "too_long",
        }
    }
}

/// The name of a script, by its place; no bytes past the last.
fn script_at<'a>(scripts: &[&'a str], at: usize) -> &'a str
    ensures { result.now ≡ get_or (map (λ s. s.now) scripts.now) at [] }
{
    match scripts.get(at) {
        Some(name) => name,
        None => "",
    }
}

/// The name that a command line has for a document.
pub fn name_of<'a>(run: &Run<'a>, role: Role) -> &'a str
    ensures { result.now ≡ name_of (run_words run.now) role }
{
    match role {
        Role::Early => run.early,
        Role::Late => run.late,
        Role::Netlist => run.netlist,
        Role::Sdc => run.sdc,
        Role::Spef => run.spef,
        Role::Journal => run.journal.unwrap_or(""),
        Role::Session { number } => script_at(&run.scripts, number.saturating_sub(1)),
    }
}

/// The bytes of a document, the first of those that are left.
fn fetch<S: Shelf>(alloc: Global, shelf: &mut S, run: &Run<'_>, role: Role) -> Result<Vec<u8>, Stop>
    ensures map { S.holds shelf.new ≡ S.holds shelf.old }
    ensures rising { S.faults shelf.old ≤ S.faults shelf.new }
    ensures text { IfOk result
        (λ doc. Gives (S.holds shelf.old) (name_of (run_words run.now) role) doc.items
        × (S.faults shelf.new ≡ S.faults shelf.old)) }
    ensures stop { IfErr result
        (λ stop. Stops (S.holds shelf.old) (run_words run.now) (S.faults shelf.old)
        (S.faults shelf.new) (role ∷ []) stop) }
    ensures unread { IfErr result IsNoFault }
{
    match shelf.fetch(alloc, name_of(run, role)) {
        Ok(doc) => Ok(doc),
        Err(Fetch::Failed) => Err(Stop::Missing(role, How::Failed)),
        Err(Fetch::Absent) => Err(Stop::Missing(role, How::Absent)),
        Err(Fetch::TooLong { .. }) => Err(Stop::Missing(role, How::TooLong)),
        Err(Fetch::Memory) => Err(Stop::Memory),
    }
}

fn early<S: Shelf>(alloc: Global, shelf: &mut S, run: &Run<'_>) -> Result<Library, Stop>
    ensures map { S.holds shelf.new ≡ S.holds shelf.old }
    ensures rising { S.faults shelf.old ≤ S.faults shelf.new }
    ensures value { IfOk result
        (λ value. Says (S.holds shelf.old) (run_words run.now).early (SaysLibrary value)
        × (S.faults shelf.new ≡ S.faults shelf.old)) }
    ensures kept { IfOk result (λ value. is_library value ≡ true) }
    ensures stop { IfErr result
        (λ stop. Stops (S.holds shelf.old) (run_words run.now) (S.faults shelf.old)
        (S.faults shelf.new) (role.Early ∷ []) stop) }
{
    let text = fetch(alloc, shelf, run, Role::Early)?;
    match read_library(alloc, text.as_slice()) {
        Ok(value) => Ok(value),
        Err(ReadFault::At { code, offset }) => Err(Stop::Refused(Role::Early, code, offset)),
        Err(ReadFault::Memory) => Err(Stop::Memory),
    }
}

/// A late library and its units.
fn read_late(alloc: Global, text: &[u8]) -> Result<(Library, Units), ReadFault>
    ensures value { MatchResult result
        (λ got. SaysLibrary got.0 text.now × (got.1 ≡ units_of_text text.now))
        (λ e. Fails e (faults_of text.now)) }
    ensures kept { IfOk result (λ got. is_library got.0 ≡ true) }
{
    let units = units(alloc, text)?;
    let library = read_library(alloc, text)?;
    Ok((library, units))
}

fn late<S: Shelf>(alloc: Global, shelf: &mut S, run: &Run<'_>) -> Result<(Library, Units), Stop>
    ensures map { S.holds shelf.new ≡ S.holds shelf.old }
    ensures rising { S.faults shelf.old ≤ S.faults shelf.new }
    ensures value { IfOk result
        (λ got. Says (S.holds shelf.old) (run_words run.now).late (SaysLibrary got.0)
        × (S.faults shelf.new ≡ S.faults shelf.old)) }
    ensures units { IfOk result (λ got. AreUnits (S.holds shelf.old) (run_words run.now) got.1) }
    ensures kept { IfOk result (λ got. is_library got.0 ≡ true) }
    ensures stop { IfErr result
        (λ stop. Stops (S.holds shelf.old) (run_words run.now) (S.faults shelf.old)
        (S.faults shelf.new) (role.Late ∷ []) stop) }
{
    let text = fetch(alloc, shelf, run, Role::Late)?;
    match read_late(alloc, text.as_slice()) {
        Ok(got) => Ok(got),
        Err(ReadFault::At { code, offset }) => Err(Stop::Refused(Role::Late, code, offset)),
        Err(ReadFault::Memory) => Err(Stop::Memory),
    }
}

fn netlist<S: Shelf>(alloc: Global, shelf: &mut S, run: &Run<'_>) -> Result<Module, Stop>
    ensures map { S.holds shelf.new ≡ S.holds shelf.old }
    ensures rising { S.faults shelf.old ≤ S.faults shelf.new }
    ensures value { IfOk result
        (λ value. Says (S.holds shelf.old) (run_words run.now).netlist (SaysModule value)
        × (S.faults shelf.new ≡ S.faults shelf.old)) }
    ensures kept { IfOk result IsNetlist }
    ensures stop { IfErr result
        (λ stop. Stops (S.holds shelf.old) (run_words run.now) (S.faults shelf.old)
        (S.faults shelf.new) (role.Netlist ∷ []) stop) }
{
    let text = fetch(alloc, shelf, run, Role::Netlist)?;
    match read_module(alloc, text.as_slice()) {
        Ok(value) => Ok(value),
        Err(ReadFault::At { code, offset }) => Err(Stop::Refused(Role::Netlist, code, offset)),
        Err(ReadFault::Memory) => Err(Stop::Memory),
    }
}

fn sdc<S: Shelf>(
    alloc: Global,
    shelf: &mut S,
    run: &Run<'_>,
    units: &Units,
) -> Result<Constraints, Stop>
    requires { AreUnits (S.holds shelf.old) (run_words run.now) units.now }
    ensures map { S.holds shelf.new ≡ S.holds shelf.old }
    ensures rising { S.faults shelf.old ≤ S.faults shelf.new }
    ensures value { IfOk result
        (λ value. AreConstraints (S.holds shelf.old) (run_words run.now) value
        × (S.faults shelf.new ≡ S.faults shelf.old)) }
    ensures kept { IfOk result (λ value. are_constraints value ≡ true) }
    ensures stop { IfErr result
        (λ stop. Stops (S.holds shelf.old) (run_words run.now) (S.faults shelf.old)
        (S.faults shelf.new) (role.Sdc ∷ []) stop) }
{
    let text = fetch(alloc, shelf, run, Role::Sdc)?;
    match read_constraints(alloc, text.as_slice(), units) {
        Ok(value) => Ok(value),
        Err(ReadFault::At { code, offset }) => Err(Stop::Refused(Role::Sdc, code, offset)),
        Err(ReadFault::Memory) => Err(Stop::Memory),
    }
}

fn spef<S: Shelf>(alloc: Global, shelf: &mut S, run: &Run<'_>) -> Result<Parasitics, Stop>
    ensures map { S.holds shelf.new ≡ S.holds shelf.old }
    ensures rising { S.faults shelf.old ≤ S.faults shelf.new }
    ensures value { IfOk result
        (λ value. Says (S.holds shelf.old) (run_words run.now).spef (SaysParasitics value)
        × (S.faults shelf.new ≡ S.faults shelf.old)) }
    ensures kept { IfOk result (λ value. are_parasitics value.nets ≡ true) }
    ensures stop { IfErr result
        (λ stop. Stops (S.holds shelf.old) (run_words run.now) (S.faults shelf.old)
        (S.faults shelf.new) (role.Spef ∷ []) stop) }
{
    let text = fetch(alloc, shelf, run, Role::Spef)?;
    match read_parasitics(alloc, text.as_slice()) {
        Ok(value) => Ok(value),
        Err(ReadFault::At { code, offset }) => Err(Stop::Refused(Role::Spef, code, offset)),
        Err(ReadFault::Memory) => Err(Stop::Memory),
    }
}

/// A script, with what is known of it.
#[tactic(auto, using(crate::proofs::ScriptLaws::script_told))]
fn read_session(alloc: Global, text: &[u8]) -> Result<Script, ReadFault>
    ensures { MatchResult result (λ s. SaysScript s text.now × IsScript s)
        (λ e. Fails e (line_faults 0 outside (events 1 (lines_of text.now)))) }
{
    read_script(alloc, text)
}

/// The script of the session of a number.
fn session<S: Shelf>(
    alloc: Global,
    shelf: &mut S,
    run: &Run<'_>,
    number: usize,
) -> Result<Script, Stop>
    ensures map { S.holds shelf.new ≡ S.holds shelf.old }
    ensures rising { S.faults shelf.old ≤ S.faults shelf.new }
    ensures value { IfOk result
        (λ value. Says (S.holds shelf.old) (name_of (run_words run.now) (role.Session number))
        (SaysScript value) × (S.faults shelf.new ≡ S.faults shelf.old)) }
    ensures kept { IfOk result IsScript }
    ensures stop { IfErr result
        (λ stop. Stops (S.holds shelf.old) (run_words run.now) (S.faults shelf.old)
        (S.faults shelf.new) (role.Session number ∷ []) stop) }
{
    let role = Role::Session { number };
    let text = fetch(alloc, shelf, run, role)?;
    match read_session(alloc, text.as_slice()) {
        Ok(value) => Ok(value),
        Err(ReadFault::At { code, offset }) => Err(Stop::Refused(role, code, offset)),
        Err(ReadFault::Memory) => Err(Stop::Memory),
    }
}

/// Scripts, and one more behind them.
fn joined(mut scripts: Items<Script>, script: Script) -> Result<Items<Script>, Stop>
    ensures { MatchResult result (λ all. all ≡ scripts ++ script ∷ [])
        (λ stop. stop ≡ cause.Memory) }
{
    match scripts.push(script) {
        Ok(()) => Ok(scripts),
        Err(Memory) => {
            discard_scripts(scripts);
            Err(Stop::Memory)
        }
    }
}

/// Scripts that were read, and the next one.
fn with_next<S: Shelf>(
    alloc: Global,
    shelf: &mut S,
    run: &Run<'_>,
    count: usize,
    scripts: Items<Script>,
) -> Result<Items<Script>, Stop>
    requires read { AreRead (S.holds shelf.old) (run_words run.now) count scripts }
    requires more { count < length run.now.scripts.items }
    ensures map { S.holds shelf.new ≡ S.holds shelf.old }
    ensures rising { S.faults shelf.old ≤ S.faults shelf.new }
    ensures value { IfOk result
        (λ got. AreRead (S.holds shelf.old) (run_words run.now) (count + 1) got
        × (S.faults shelf.new ≡ S.faults shelf.old)) }
    ensures stop { IfErr result
        (λ stop. Stops (S.holds shelf.old) (run_words run.now) (S.faults shelf.old)
        (S.faults shelf.new) (script_sources 1 (run_words run.now).scripts) stop) }
{
    match session(alloc, shelf, run, count + 1) {
        Ok(script) => joined(scripts, script),
        Err(stop) => {
            discard_scripts(scripts);
            Err(stop)
        }
    }
}

/// The scripts of a run, in order.
#[tactic(auto, using(crate::proofs::ReadLemmas::read_none, crate::proofs::ReadLemmas::all_said))]
fn scripts<S: Shelf>(alloc: Global, shelf: &mut S, run: &Run<'_>) -> Result<Items<Script>, Stop>
    ensures map { S.holds shelf.new ≡ S.holds shelf.old }
    ensures rising { S.faults shelf.old ≤ S.faults shelf.new }
    ensures value { IfOk result
        (λ got. SayScripts (S.holds shelf.old) (run_words run.now).scripts got
        × (S.faults shelf.new ≡ S.faults shelf.old)) }
    ensures kept { IfOk result
        (λ got. All IsScript got × (length got ≡ length run.now.scripts.items)) }
    ensures stop { IfErr result
        (λ stop. Stops (S.holds shelf.old) (run_words run.now) (S.faults shelf.old)
        (S.faults shelf.new) (script_sources 1 (run_words run.now).scripts) stop) }
{
    let mut scripts = Items::new(alloc);
    for count in 0..run.scripts.len() {
        scripts = with_next(alloc, shelf, run, count, scripts)?;
    }
    Ok(scripts)
}

/// Whether the word of a run says that it has no parasitics.
fn has_no_spef(run: &Run<'_>) -> bool
    ensures { result ≡ has_no_spef (run_words run.now) }
{
    run.spef == "none"
}

/// The parasitics of a run, or none where its words name none.
fn spef_if_named<S: Shelf>(alloc: Global, shelf: &mut S, run: &Run<'_>) -> Result<Parasitics, Stop>
    ensures map { S.holds shelf.new ≡ S.holds shelf.old }
    ensures rising { S.faults shelf.old ≤ S.faults shelf.new }
    ensures value { IfOk result
        (λ value. AreParasitics (S.holds shelf.old) (run_words run.now) value
        × (S.faults shelf.new ≡ S.faults shelf.old)) }
    ensures kept { IfOk result (λ value. are_parasitics value.nets ≡ true) }
    ensures stop { IfErr result
        (λ stop. Stops (S.holds shelf.old) (run_words run.now) (S.faults shelf.old)
        (S.faults shelf.new) (spef_sources (run_words run.now)) stop) }
{
    if has_no_spef(run) {
        Ok(Parasitics {
            nets: Items::new(alloc),
        })
    } else {
        spef(alloc, shelf, run)
    }
}

/// Constraints and parasitics.
#[derive(Drop)]
struct Constrained {
    sdc: Constraints,
    spef: Parasitics,
}

#[tactic(auto, using(crate::proofs::Stopping::stops_first))]
fn from_sdc<S: Shelf>(
    alloc: Global,
    shelf: &mut S,
    run: &Run<'_>,
    units: &Units,
) -> Result<Constrained, Stop>
    requires { AreUnits (S.holds shelf.old) (run_words run.now) units.now }
    ensures map { S.holds shelf.new ≡ S.holds shelf.old }
    ensures rising { S.faults shelf.old ≤ S.faults shelf.new }
    ensures value { IfOk result
        (λ got. AreConstraints (S.holds shelf.old) (run_words run.now) got.sdc
        × AreParasitics (S.holds shelf.old) (run_words run.now) got.spef
        × (S.faults shelf.new ≡ S.faults shelf.old)) }
    ensures kept { IfOk result
        (λ got. (are_constraints got.sdc ≡ true) × (are_parasitics got.spef.nets ≡ true)) }
    ensures stop { IfErr result
        (λ stop. Stops (S.holds shelf.old) (run_words run.now) (S.faults shelf.old)
        (S.faults shelf.new) (role.Sdc ∷ spef_sources (run_words run.now)) stop) }
{
    let sdc = sdc(alloc, shelf, run, units)?;
    match spef_if_named(alloc, shelf, run) {
        Ok(spef) => Ok(Constrained { sdc, spef }),
        Err(stop) => {
            discard_constraints(sdc);
            Err(stop)
        }
    }
}

/// Both libraries, with the units of the late one.
#[derive(Drop)]
struct Libraries {
    early: Library,
    late: Library,
    units: Units,
}

impl Libraries {
    /// Gives the libraries up.
    fn discard(self) {
        let Libraries { early, late, .. } = self;
        discard_library(early);
        discard_library(late);
    }
}

#[tactic(auto, using(crate::proofs::Stopping::stops_first, crate::proofs::Stopping::stops_behind))]
fn read_libraries<S: Shelf>(alloc: Global, shelf: &mut S, run: &Run<'_>) -> Result<Libraries, Stop>
    ensures map { S.holds shelf.new ≡ S.holds shelf.old }
    ensures rising { S.faults shelf.old ≤ S.faults shelf.new }
    ensures value { IfOk result
        (λ got. Says (S.holds shelf.old) (run_words run.now).early (SaysLibrary got.early)
        × Says (S.holds shelf.old) (run_words run.now).late (SaysLibrary got.late)
        × (S.faults shelf.new ≡ S.faults shelf.old)) }
    ensures units { IfOk result
        (λ got. AreUnits (S.holds shelf.old) (run_words run.now) got.units) }
    ensures kept { IfOk result
        (λ got. (is_library got.early ≡ true) × (is_library got.late ≡ true)) }
    ensures stop { IfErr result
        (λ stop. Stops (S.holds shelf.old) (run_words run.now) (S.faults shelf.old)
        (S.faults shelf.new) (role.Early ∷ role.Late ∷ []) stop) }
{
    let early = early(alloc, shelf, run)?;
    match late(alloc, shelf, run) {
        Ok((late, units)) => Ok(Libraries { early, late, units }),
        Err(stop) => {
            discard_library(early);
            Err(stop)
        }
    }
}

/// Libraries and netlist.
#[derive(Drop)]
struct Netted {
    libraries: Libraries,
    netlist: Module,
}

impl Netted {
    /// Gives libraries and netlist up.
    fn discard(self) {
        let Netted { libraries, netlist } = self;
        libraries.discard();
        discard_netlist(netlist);
    }
}

/// A netlist, behind libraries that were read.
fn with_netlist<S: Shelf>(
    alloc: Global,
    shelf: &mut S,
    run: &Run<'_>,
    libraries: Libraries,
) -> Result<Netted, Stop>
    requires early { Says (S.holds shelf.old) (run_words run.now).early
        (SaysLibrary libraries.early) }
    requires late { Says (S.holds shelf.old) (run_words run.now).late (SaysLibrary libraries.late) }
    requires units { AreUnits (S.holds shelf.old) (run_words run.now) libraries.units }
    requires kept { (is_library libraries.early ≡ true) × (is_library libraries.late ≡ true) }
    ensures map { S.holds shelf.new ≡ S.holds shelf.old }
    ensures rising { S.faults shelf.old ≤ S.faults shelf.new }
    ensures libraries { IfOk result
        (λ got. Says (S.holds shelf.old) (run_words run.now).early (SaysLibrary got.libraries.early)
        × Says (S.holds shelf.old) (run_words run.now).late (SaysLibrary got.libraries.late)
        × (S.faults shelf.new ≡ S.faults shelf.old)) }
    ensures netlist { IfOk result
        (λ got. Says (S.holds shelf.old) (run_words run.now).netlist (SaysModule got.netlist)) }
    ensures units { IfOk result
        (λ got. AreUnits (S.holds shelf.old) (run_words run.now) got.libraries.units) }
    ensures kept { IfOk result
        (λ got. (is_library got.libraries.early ≡ true) × (is_library got.libraries.late ≡ true)
        × IsNetlist got.netlist) }
    ensures stop { IfErr result
        (λ stop. Stops (S.holds shelf.old) (run_words run.now) (S.faults shelf.old)
        (S.faults shelf.new) (role.Netlist ∷ []) stop) }
{
    match netlist(alloc, shelf, run) {
        Ok(netlist) => Ok(Netted { libraries, netlist }),
        Err(stop) => {
            libraries.discard();
            Err(stop)
        }
    }
}

#[tactic(auto, using(crate::proofs::Stopping::stops_both, crate::proofs::Stopping::stops_netlist))]
fn to_netlist<S: Shelf>(alloc: Global, shelf: &mut S, run: &Run<'_>) -> Result<Netted, Stop>
    ensures map { S.holds shelf.new ≡ S.holds shelf.old }
    ensures rising { S.faults shelf.old ≤ S.faults shelf.new }
    ensures libraries { IfOk result
        (λ got. Says (S.holds shelf.old) (run_words run.now).early (SaysLibrary got.libraries.early)
        × Says (S.holds shelf.old) (run_words run.now).late (SaysLibrary got.libraries.late)
        × (S.faults shelf.new ≡ S.faults shelf.old)) }
    ensures netlist { IfOk result
        (λ got. Says (S.holds shelf.old) (run_words run.now).netlist (SaysModule got.netlist)) }
    ensures units { IfOk result
        (λ got. AreUnits (S.holds shelf.old) (run_words run.now) got.libraries.units) }
    ensures kept { IfOk result
        (λ got. (is_library got.libraries.early ≡ true) × (is_library got.libraries.late ≡ true)
        × IsNetlist got.netlist) }
    ensures stop { IfErr result
        (λ stop. Stops (S.holds shelf.old) (run_words run.now) (S.faults shelf.old)
        (S.faults shelf.new) (role.Early ∷ role.Late ∷ role.Netlist ∷ []) stop) }
{
    let libraries = read_libraries(alloc, shelf, run)?;
    let netted = with_netlist(alloc, shelf, run, libraries)?;
    Ok(netted)
}

/// The documents of a design, behind libraries and netlist that were read.
fn with_rest<S: Shelf>(
    alloc: Global,
    shelf: &mut S,
    run: &Run<'_>,
    netted: Netted,
) -> Result<DesignDocuments, Stop>
    requires early { Says (S.holds shelf.old) (run_words run.now).early
        (SaysLibrary netted.libraries.early) }
    requires late { Says (S.holds shelf.old) (run_words run.now).late
        (SaysLibrary netted.libraries.late) }
    requires netlist { Says (S.holds shelf.old) (run_words run.now).netlist
        (SaysModule netted.netlist) }
    requires units { AreUnits (S.holds shelf.old) (run_words run.now) netted.libraries.units }
    requires kept { (is_library netted.libraries.early ≡ true)
        × (is_library netted.libraries.late ≡ true) × IsNetlist netted.netlist }
    ensures map { S.holds shelf.new ≡ S.holds shelf.old }
    ensures rising { S.faults shelf.old ≤ S.faults shelf.new }
    ensures value { IfOk result
        (λ got. AreDesign (S.holds shelf.old) (run_words run.now) got
        × (S.faults shelf.new ≡ S.faults shelf.old)) }
    ensures kept { IfOk result IsKeptDesign }
    ensures stop { IfErr result
        (λ stop. Stops (S.holds shelf.old) (run_words run.now) (S.faults shelf.old)
        (S.faults shelf.new) (role.Sdc ∷ spef_sources (run_words run.now)) stop) }
{
    match from_sdc(alloc, shelf, run, &netted.libraries.units) {
        Ok(Constrained { sdc, spef }) => {
            let Netted { libraries, netlist } = netted;
            let Libraries { early, late, .. } = libraries;
            Ok(DesignDocuments {
                early,
                late,
                netlist,
                sdc,
                spef,
            })
        }
        Err(stop) => {
            netted.discard();
            Err(stop)
        }
    }
}

/// The documents of a design.
#[tactic(auto, using(crate::proofs::Stopping::stops_three, crate::proofs::Stopping::stops_rest))]
fn design<S: Shelf>(alloc: Global, shelf: &mut S, run: &Run<'_>) -> Result<DesignDocuments, Stop>
    ensures map { S.holds shelf.new ≡ S.holds shelf.old }
    ensures rising { S.faults shelf.old ≤ S.faults shelf.new }
    ensures value { IfOk result
        (λ got. AreDesign (S.holds shelf.old) (run_words run.now) got
        × (S.faults shelf.new ≡ S.faults shelf.old)) }
    ensures kept { IfOk result IsKeptDesign }
    ensures stop { IfErr result
        (λ stop. Stops (S.holds shelf.old) (run_words run.now) (S.faults shelf.old)
        (S.faults shelf.new) (design_sources (run_words run.now)) stop) }
{
    let netted = to_netlist(alloc, shelf, run)?;
    let design = with_rest(alloc, shelf, run, netted)?;
    Ok(design)
}

/// The text of a saved journal, where the words name one.
fn journal<S: Shelf>(alloc: Global, shelf: &mut S, run: &Run<'_>) -> Result<Option<Items<u8>>, Stop>
    ensures map { S.holds shelf.new ≡ S.holds shelf.old }
    ensures rising { S.faults shelf.old ≤ S.faults shelf.new }
    ensures value { IfOk result
        (λ text. IsFetched (S.holds shelf.old) (run_words run.now).journal text
        × (S.faults shelf.new ≡ S.faults shelf.old)) }
    ensures stop { IfErr result
        (λ stop. Stops (S.holds shelf.old) (run_words run.now) (S.faults shelf.old)
        (S.faults shelf.new) (fetched_journal (run_words run.now)) stop) }
    ensures unread { IfErr result IsNoFault }
{
    match run.journal {
        None => Ok(None),
        Some(_) => match fetch(alloc, shelf, run, Role::Journal) {
            Ok(text) => Ok(Some(Items::from_vec(text))),
            Err(stop) => Err(stop),
        },
    }
}

/// The documents of a design, and the text of a saved journal behind them.
fn with_journal<S: Shelf>(
    alloc: Global,
    shelf: &mut S,
    run: &Run<'_>,
    design: DesignDocuments,
) -> Result<ReadDesign, Stop>
    requires design { AreDesign (S.holds shelf.old) (run_words run.now) design }
    requires kept { IsKeptDesign design }
    ensures map { S.holds shelf.new ≡ S.holds shelf.old }
    ensures rising { S.faults shelf.old ≤ S.faults shelf.new }
    ensures value { IfOk result
        (λ got. IsReadDesign (S.holds shelf.old) (run_words run.now) got
        × (S.faults shelf.new ≡ S.faults shelf.old)) }
    ensures kept { IfOk result (λ got. IsKeptDesign got.design) }
    ensures stop { IfErr result
        (λ stop. DesignStops (S.holds shelf.old) (run_words run.now) (S.faults shelf.old)
        (S.faults shelf.new) stop) }
{
    match journal(alloc, shelf, run) {
        Ok(journal) => Ok(ReadDesign { design, journal }),
        Err(stop) => {
            design.discard();
            Err(stop)
        }
    }
}

/// The documents of a design, each fetched and at once read: libraries, netlist, constraints in the
/// units of the late library, and parasitics. Behind them the text of a saved journal is fetched,
/// where the words name one; `saved_entries` reads it. The scripts of the words stay where they are.
///
/// # Errors
///
/// The first document that has a fault, or that the shelf did not give; or want of memory.
#[tactic(auto, using(crate::proofs::DesignLaws::stops_in_design))]
pub fn read_design<S: Shelf>(
    alloc: Global,
    shelf: &mut S,
    run: &Run<'_>,
) -> Result<ReadDesign, Stop>
    ensures map { S.holds shelf.new ≡ S.holds shelf.old }
    ensures rising { S.faults shelf.old ≤ S.faults shelf.new }
    ensures value { IfOk result
        (λ got. IsReadDesign (S.holds shelf.old) (run_words run.now) got
        × (S.faults shelf.new ≡ S.faults shelf.old)) }
    ensures kept { IfOk result (λ got. IsKeptDesign got.design) }
    ensures stop { IfErr result
        (λ stop. DesignStops (S.holds shelf.old) (run_words run.now) (S.faults shelf.old)
        (S.faults shelf.new) stop) }
{
    match design(alloc, shelf, run) {
        Ok(design) => with_journal(alloc, shelf, run, design),
        Err(stop) => Err(stop),
    }
}

/// The most saved entries, so that those of the run can be counted behind them.
const MOST_SAVED: u64 = 1 << 62;

/// The entries of a saved journal, by the factors of the constraints.
#[tactic(auto, using(crate::proofs::JournalLaws::journal_refused))]
fn read_journal(alloc: Global, text: &[u8], derates: &Derates) -> Result<Items<Entry>, ReadFault>
    ensures { MatchResult result
        (λ saved. SaysJournal derates.now saved text.now × AreReplayable (Some saved))
        (λ e. Fails e (journal_faults derates.now text.now)) }
{
    match read_saved(alloc, text, derates) {
        Ok(saved) => {
            if saved.len() as u64 <= MOST_SAVED {
                Ok(saved)
            } else {
                discard_entries(saved);
                Err(ReadFault::Memory)
            }
        }
        Err(fault) => Err(fault),
    }
}

/// The entries of the text of a saved journal, read by the factors of the constraints; none where
/// there is no text.
///
/// # Errors
///
/// The fault of the text, as that of the document `Journal`; or want of memory.
pub fn saved_entries(
    alloc: Global,
    journal: &Option<Items<u8>>,
    derates: &Derates,
) -> Result<Option<Items<Entry>>, Stop>
    ensures value { IfOk result (AreEntriesOf derates.now journal.now) }
    ensures kept { IfOk result AreReplayable }
    ensures stop { IfErr result (JournalStops derates.now journal.now) }
{
    match journal {
        None => Ok(None),
        Some(text) => match read_journal(alloc, text.as_slice(), derates) {
            Ok(saved) => Ok(Some(saved)),
            Err(ReadFault::At { code, offset }) => Err(Stop::Refused(Role::Journal, code, offset)),
            Err(ReadFault::Memory) => Err(Stop::Memory),
        },
    }
}

/// All documents, behind those of a design and saved entries.
fn with_scripts<S: Shelf>(
    alloc: Global,
    shelf: &mut S,
    run: &Run<'_>,
    design: DesignDocuments,
    saved: Option<Items<Entry>>,
) -> Result<Documents, Stop>
    requires design { AreDesign (S.holds shelf.old) (run_words run.now) design }
    requires kept { IsKeptDesign design }
    requires saved { AreSaved (S.holds shelf.old) (run_words run.now).journal design.sdc.derates
        saved }
    requires entries { AreReplayable saved }
    ensures map { S.holds shelf.new ≡ S.holds shelf.old }
    ensures rising { S.faults shelf.old ≤ S.faults shelf.new }
    ensures value { IfOk result
        (λ got. AreDocuments (S.holds shelf.old) (run_words run.now) got
        × (S.faults shelf.new ≡ S.faults shelf.old)) }
    ensures kept { IfOk result AreKept }
    ensures many { IfOk result (λ got. length got.scripts ≡ length run.now.scripts.items) }
    ensures stop { IfErr result
        (λ stop. Stops (S.holds shelf.old) (run_words run.now) (S.faults shelf.old)
        (S.faults shelf.new) (sources (run_words run.now)) stop) }
{
    match scripts(alloc, shelf, run) {
        Ok(scripts) => {
            let DesignDocuments {
                early,
                late,
                netlist,
                sdc,
                spef,
            } = design;
            Ok(Documents {
                early,
                late,
                netlist,
                sdc,
                spef,
                saved,
                scripts,
            })
        }
        Err(stop) => {
            discard_saved(saved);
            design.discard();
            Err(stop)
        }
    }
}

/// All documents, behind those of a design and the text of a saved journal.
#[tactic(auto, using(crate::proofs::DesignLaws::are_saved))]
fn with_last<S: Shelf>(
    alloc: Global,
    shelf: &mut S,
    run: &Run<'_>,
    read: ReadDesign,
) -> Result<Documents, Stop>
    requires read { IsReadDesign (S.holds shelf.old) (run_words run.now) read }
    requires kept { IsKeptDesign read.design }
    ensures map { S.holds shelf.new ≡ S.holds shelf.old }
    ensures rising { S.faults shelf.old ≤ S.faults shelf.new }
    ensures value { IfOk result
        (λ got. AreDocuments (S.holds shelf.old) (run_words run.now) got
        × (S.faults shelf.new ≡ S.faults shelf.old)) }
    ensures kept { IfOk result AreKept }
    ensures many { IfOk result (λ got. length got.scripts ≡ length run.now.scripts.items) }
    ensures stop { IfErr result
        (λ stop. Stops (S.holds shelf.old) (run_words run.now) (S.faults shelf.old)
        (S.faults shelf.new) (sources (run_words run.now)) stop) }
{
    let ReadDesign { design, journal } = read;
    let saved = saved_entries(alloc, &journal, &design.sdc.derates);
    discard_journal(journal);
    match saved {
        Ok(saved) => with_scripts(alloc, shelf, run, design, saved),
        Err(stop) => {
            design.discard();
            Err(stop)
        }
    }
}

/// The values of the documents of a run, each fetched and at once read: libraries, netlist,
/// constraints in the units of the late library, parasitics, a saved journal by the factors of the
/// constraints, and the scripts in order.
///
/// # Errors
///
/// The first document that has a fault, or that the shelf did not give; or want of memory.
#[tactic(auto, using(crate::proofs::DesignLaws::stops_before_scripts))]
pub fn read_all<S: Shelf>(alloc: Global, shelf: &mut S, run: &Run<'_>) -> Result<Documents, Stop>
    ensures map { S.holds shelf.new ≡ S.holds shelf.old }
    ensures rising { S.faults shelf.old ≤ S.faults shelf.new }
    ensures value { IfOk result
        (λ got. AreDocuments (S.holds shelf.old) (run_words run.now) got
        × (S.faults shelf.new ≡ S.faults shelf.old)) }
    ensures kept { IfOk result AreKept }
    ensures many { IfOk result (λ got. length got.scripts ≡ length run.now.scripts.items) }
    ensures stop { IfErr result
        (λ stop. Stops (S.holds shelf.old) (run_words run.now) (S.faults shelf.old)
        (S.faults shelf.new) (sources (run_words run.now)) stop) }
{
    match read_design(alloc, shelf, run) {
        Ok(read) => with_last(alloc, shelf, run, read),
        Err(stop) => Err(stop),
    }
}
