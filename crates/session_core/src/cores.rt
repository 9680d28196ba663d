//! The core.

ghost use Rattle.std.specs.Prelude.{◌≡◌, ◌-◌, ◌^◌, ◌<◌, ◌≤◌, suc, length, IsTrue, map, MatchOption, IfOk, OnOk, OnErr};
ghost use Rattle.std.specs.List.{list_all};
ghost use Rattle.std.proofs.Props.{props};
ghost use Rattle.session_core.specs.Machine.{is_runnable, AreWithin, unstarted, state, next_command, session_of, session_after, entries_after, happens, opening, after_all};
ghost use Rattle.session_core.specs.Law.{IsReached, AreLawful};

use crate::events::Event;
use crate::lists::take_out;
use crate::rows::CoreSession;
use sta_units::Memory;
use std::alloc::Global;
use timing_defs::{Entry, Items, Script};

/// Sessions over one journal: the first number, the entries that were published, the script of each
/// session, and where each session is. The numbers of versions go from `first` to `first` plus the
/// number of entries.
///
/// `first` is at most `2^62`, there are 1 to 16 scripts and as many sessions, and each session is
/// within its script: its next command is one of the script or comes after the last, it holds a
/// version where it has looked, and a draft is that of an ECO on the version that is held.
#[derive(Drop)]
pub struct Core {
    pub first: u64,
    pub entries: Items<Entry>,
    pub scripts: Items<Script>,
    pub sessions: Items<CoreSession>,
    alloc: Global,
    ghost low: { first ≤ 2 ^ 62 },
    ghost several: { (1 ≤ length scripts) × (length scripts ≤ 16) },
    ghost runnable: { IsTrue (list_all is_runnable scripts) },
    ghost paired: { length sessions ≡ length scripts },
    ghost within: { AreWithin scripts sessions } by { Prim.hlevel props },
}

/// A session before its first command.
fn unstarted(alloc: Global) -> CoreSession
    ensures { result ≡ unstarted }
{
    CoreSession {
        next: 1,
        held: None,
        looks: Items::new(alloc),
        draft: None,
        rows: Items::new(alloc),
    }
}

/// As many sessions before their first command as there are scripts.
fn unstarted_all(alloc: Global, scripts: &[Script]) -> Result<Items<CoreSession>, Memory>
    ensures { IfOk result (λ sessions. sessions ≡ map (λ _. unstarted) scripts.now) }
{
    let mut sessions = Items::with_room(alloc, scripts.len())?;
    for _script in scripts {
        sessions.push(unstarted(alloc))?;
    }
    Ok(sessions)
}

/// The place of the session that an event is of, from 0; none for the number 0.
fn place_of(event: Event) -> Option<usize>
    ensures { MatchOption result (session_of event ≡ 0) (λ place. session_of event ≡ suc place) }
{
    let session = match event {
        Event::Take { session } => session,
        Event::Level { session, .. } => session,
        Event::Publish { session } => session,
        Event::Answer { session } => session,
    };
    match session.checked_sub(1) {
        Some(place) => Some(place as usize),
        None => None,
    }
}

/// What an event makes of the session `session`, which runs `script`, and of the journal.
fn step_session(
    alloc: Global,
    newest: u64,
    entries: &mut Items<Entry>,
    script: &Script,
    session: &mut CoreSession,
    event: Event,
) -> Result<(), Memory>
    requires within { session.old.next < 2 ^ 32 - 1 }
    requires room { newest < 2 ^ 64 - 1 }
    ensures session_ok { OnOk result
        (session.new
        ≡ session_after newest (next_command script.now session.old) event session.old) }
    ensures entries_ok { OnOk result
        (entries.new
        ≡ entries_after newest (next_command script.now session.old) event session.old
        entries.old) }
    ensures session_err { OnErr result (session.new ≡ session.old) }
    ensures entries_err { OnErr result (entries.new ≡ entries.old) }
{
    match event {
        Event::Take { .. } => session.take(script, newest),
        Event::Level { level, .. } => {
            session.merge(level);
            Ok(())
        }
        Event::Publish { session: number } => {
            session.publish(alloc, script, number, newest, entries)
        }
        Event::Answer { .. } => session.answer(alloc, script),
    }
}

/// What an event makes of these sessions, which run these scripts, and of the journal.
fn step_sessions(
    alloc: Global,
    first: u64,
    entries: &mut Items<Entry>,
    scripts: &Items<Script>,
    sessions: &mut [CoreSession],
    event: Event,
) -> Result<(), Memory>
    requires low { first ≤ 2 ^ 62 }
    requires runnable { IsTrue (list_all is_runnable scripts.now) }
    requires within { AreWithin scripts.now sessions.old }
    ensures ok { OnOk result
        (state first entries.new scripts.now sessions.new
        ≡ happens (state first entries.old scripts.now sessions.old) event) }
    ensures err { OnErr result
        (state first entries.new scripts.now sessions.new
        ≡ state first entries.old scripts.now sessions.old) }
{
    let newest = first + entries.as_slice().len() as u64;
    let Some(place) = place_of(event) else {
        return Ok(());
    };
    let Some(script) = scripts.get(place) else {
        return Ok(());
    };
    if sessions.len() <= place {
        return Ok(());
    }
    step_session(alloc, newest, entries, script, &mut sessions[place], event)
}

/// What an event makes of the list of sessions, which run these scripts, and of the journal.
fn step_lists(
    alloc: Global,
    first: u64,
    entries: &mut Items<Entry>,
    scripts: &Items<Script>,
    sessions: &mut Items<CoreSession>,
    event: Event,
) -> Result<(), Memory>
    requires low { first ≤ 2 ^ 62 }
    requires runnable { IsTrue (list_all is_runnable scripts.now) }
    requires within { AreWithin scripts.now sessions.old }
    ensures ok { OnOk result
        (state first entries.new scripts.now sessions.new
        ≡ happens (state first entries.old scripts.now sessions.old) event) }
    ensures err { OnErr result
        (state first entries.new scripts.now sessions.new
        ≡ state first entries.old scripts.now sessions.old) }
{
    let mut parts = take_out(alloc, sessions);
    let stepped = step_sessions(alloc, first, entries, scripts, parts.as_mut_slice(), event);
    *sessions = Items::from_vec(parts);
    stepped
}

impl Core {
    ghost use Rattle.session_core.specs.Cores.{state_of};

    /// The core of these scripts before any event. The first number of the run is at most `2^62`, and
    /// there are 1 to 16 scripts of at most 10,000 commands, each `await` with one look or more.
    pub fn begin(alloc: Global, first: u64, scripts: Items<Script>) -> Result<Core, Memory>
        requires low { first ≤ 2 ^ 62 }
        requires several { (1 ≤ length scripts) × (length scripts ≤ 16) }
        requires runnable { IsTrue (list_all is_runnable scripts) }
        ensures state { IfOk result (λ core. state_of core ≡ opening first scripts) }
        ensures reached { IfOk result (λ core. IsReached (state_of core)) }
    {
        let sessions = unstarted_all(alloc, scripts.as_slice())?;
        Ok(Core {
            first,
            entries: Items::new(alloc),
            scripts,
            sessions,
            alloc,
        })
    }

    /// One event. An event that is not possible changes nothing. Where memory is wanting the core is
    /// as before.
    pub fn step(&mut self, event: Event) -> Result<(), Memory>
        ensures state { OnOk result (state_of self.new ≡ happens (state_of self.old) event) }
        ensures err { OnErr result (state_of self.new ≡ state_of self.old) }
        ensures reached { IsReached (state_of self.old) → IsReached (state_of self.new) }
        ensures law { IsReached (state_of self.old) → AreLawful (state_of self.new) }
    {
        step_lists(
            self.alloc,
            self.first,
            &mut self.entries,
            &self.scripts,
            &mut self.sessions,
            event,
        )
    }

    /// The core of these scripts after all events, in order. The conditions are those of `begin`.
    pub fn all(
        alloc: Global,
        first: u64,
        scripts: Items<Script>,
        events: &[Event],
    ) -> Result<Core, Memory>
        requires low { first ≤ 2 ^ 62 }
        requires several { (1 ≤ length scripts) × (length scripts ≤ 16) }
        requires runnable { IsTrue (list_all is_runnable scripts) }
        ensures state { IfOk result
            (λ core. state_of core ≡ after_all (opening first scripts) events.now) }
        ensures reached { IfOk result (λ core. IsReached (state_of core)) }
        ensures law { IfOk result (λ core. AreLawful (state_of core)) }
    {
        let mut core = Core::begin(alloc, first, scripts)?;
        for event in events {
            core.step(*event)?;
        }
        Ok(core)
    }
}
