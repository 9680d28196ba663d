//! Scripts and events as texts, and whether scripts can be run.

ghost use Rattle.std.specs.Prelude.{◌≡◌};
ghost use Rattle.std.specs.List.{list_all};
ghost use Rattle.session_core.specs.Machine.{may_end, is_runnable};

use crate::words::{Stop, is_none, name, parted, place};
use session_core::Event;
use std::alloc::Global;
use timing_defs::{Command, Eco, Edit, Items, Kind, Query, Script};

fn may_end(command: &Command) -> bool
    ensures { result ≡ may_end command.now }
{
    match command {
        Command::Await { looks, .. } => 0 < *looks,
        Command::Take | Command::Ask(_) | Command::Change(_) => true,
    }
}

fn all_may_end(commands: &[Command]) -> bool
    ensures { result ≡ list_all may_end commands.now }
{
    commands.iter().all(|command| may_end(command))
}

fn is_runnable(script: &Script) -> bool
    ensures { result ≡ is_runnable script.now }
{
    script.commands.len() <= 10_000 && all_may_end(script.commands.as_slice())
}

/// Whether all scripts can be run.
pub(crate) fn are_runnable(scripts: &[Script]) -> bool
    ensures { result ≡ list_all is_runnable scripts.now }
{
    scripts.iter().all(|script| is_runnable(script))
}

/// The event of a text such as `take 1` or `level 1 0`.
pub(crate) fn event(text: &str) -> Result<Event, Stop> {
    let (kind, rest) = parted(text.trim(), ' ')?;
    match kind {
        "take" => Ok(Event::Take {
            session: place(rest)?,
        }),
        "publish" => Ok(Event::Publish {
            session: place(rest)?,
        }),
        "answer" => Ok(Event::Answer {
            session: place(rest)?,
        }),
        "level" => {
            let (session, level) = parted(rest, ' ')?;
            Ok(Event::Level {
                session: place(session)?,
                level: u64::from(place(level)?),
            })
        }
        _ => Err(Stop::Row),
    }
}

/// Adds the events of a text such as `take 1, answer 1`; `-` has none.
pub(crate) fn add_events(events: &mut Items<Event>, text: &str) -> Result<(), Stop> {
    if is_none(text) {
        return Ok(());
    }
    for part in text.split(',') {
        events.push(event(part)?)?;
    }
    Ok(())
}

/// The ECO that inserts a net.
fn new_net(alloc: Global, net: &str) -> Result<Eco, Stop> {
    let net = name(alloc, net)?;
    let mut edits = Items::new(alloc);
    edits.push(Edit::InsertNet { net })?;
    Ok(Eco { edits })
}

fn command(alloc: Global, text: &str) -> Result<Command, Stop> {
    match text {
        "take" => Ok(Command::Take),
        "ask" => Ok(Command::Ask(Query::Wns { kind: Kind::Setup })),
        _ => longer_command(alloc, text),
    }
}

/// The command of a text such as `change NET` or `await NUMBER LOOKS`.
fn longer_command(alloc: Global, text: &str) -> Result<Command, Stop> {
    let (kind, rest) = parted(text, ' ')?;
    match kind {
        "change" => Ok(Command::Change(new_net(alloc, rest)?)),
        "await" => {
            let (number, looks) = parted(rest, ' ')?;
            Ok(Command::Await {
                number: u64::from(place(number)?),
                looks: place(looks)?,
            })
        }
        _ => Err(Stop::Row),
    }
}

/// Adds the commands of a text such as `take, await 3 1`.
fn add_commands(alloc: Global, commands: &mut Items<Command>, text: &str) -> Result<(), Stop> {
    for part in text.split(',') {
        commands.push(command(alloc, part.trim())?)?;
    }
    Ok(())
}

/// Adds the scripts of a text such as `take, change a / ask`.
pub(crate) fn add_scripts(
    alloc: Global,
    scripts: &mut Items<Script>,
    text: &str,
) -> Result<(), Stop> {
    for part in text.split('/') {
        let mut commands = Items::new(alloc);
        add_commands(alloc, &mut commands, part)?;
        scripts.push(Script { commands })?;
    }
    Ok(())
}
