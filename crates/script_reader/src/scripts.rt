//! The commands of a script, line by line.

ghost use Rattle.std.specs.Prelude.{◌≡◌, ◌++◌, ◌∷◌, [], List, true, IfOk};
ghost use Rattle.sta_text.specs.Faults.{lesser};
ghost use Rattle.eco_journal.specs.Journal.{Tells};
ghost use Rattle.script_reader.specs.Scripts.{Event, single, change, group_begin, group_end, draft_begin, Place, outside, bad, too_long, line_said, told, script_of};
ghost use Rattle.script_reader.specs.Answerable.{are_answerable};
ghost use Rattle.script_reader.specs.Progress.{said_events, in_group, behind_progress, whole};

use crate::drafts::{draft_group_line, draft_line};
use crate::lines::{Said, read_line};
use crate::states::{
    Draft, EDIT_LIMIT, Group, Progress, State, eco_of, limited, noted, stopped, with_edit,
    with_pushed,
};
use eco_journal::Lines;
use sta_text::Wrong;
use sta_units::Memory;
use std::alloc::Global;
use timing_defs::{Code, Command, Eco, Edit, Items, ReadFault, Script};

/// The greatest number of bytes of a line before its line feed.
pub(crate) const LINE_LIMIT: usize = 65_536;

/// The greatest number of commands.
const COMMAND_LIMIT: usize = 10_000;

/// The state behind a command of one line.
#[tactic(auto, unfolding(crate::specs::Scripts::faults, crate::specs::Scripts::commands))]
fn with_command(progress: Progress, line: usize, command: Command) -> Result<State, Memory>
    ensures { IfOk result
        (λ next. (rest : List Event) → whole next rest
        ≡ behind_progress progress outside (single line command ∷ rest)) }
{
    let count = progress.commands.len();
    with_pushed(limited(progress, COMMAND_LIMIT, count, line), command)
}

/// The state behind an edit by itself, which is a command.
#[tactic(auto, unfolding(crate::specs::Scripts::faults, crate::specs::Scripts::commands))]
fn with_change(alloc: Global, progress: Progress, line: usize, edit: Edit) -> Result<State, Memory>
    ensures { IfOk result
        (λ next. (rest : List Event) → whole next rest
        ≡ behind_progress progress outside (change line edit ∷ rest)) }
{
    match eco_of(alloc, edit) {
        Ok(eco) => with_command(progress, line, Command::Change(eco)),
        Err(wanting) => {
            progress.discard();
            Err(wanting)
        }
    }
}

/// The state behind the begin of a group.
#[tactic(auto, unfolding(crate::specs::Scripts::faults, crate::specs::Scripts::commands))]
fn group_begun(alloc: Global, progress: Progress, line: usize) -> State
    ensures { (rest : List Event) → whole result rest
        ≡ behind_progress progress outside (group_begin line ∷ rest) }
{
    let count = progress.commands.len();
    let progress = limited(progress, COMMAND_LIMIT, count, line);
    let group = Group {
        begin: line,
        edits: Items::new(alloc),
    };
    State::InGroup(group, progress)
}

/// The state behind the begin of a draft.
#[tactic(auto, unfolding(crate::specs::Scripts::faults, crate::specs::Scripts::commands))]
fn draft_begun(alloc: Global, progress: Progress, line: usize) -> State
    ensures { (rest : List Event) → whole result rest
        ≡ behind_progress progress outside (draft_begin line ∷ rest) }
{
    let count = progress.commands.len();
    let progress = limited(progress, COMMAND_LIMIT, count, line);
    let draft = Draft {
        begin: line,
        trials: Items::new(alloc),
    };
    State::InDraft(draft, progress)
}

/// The state behind what a line outside a group says.
#[tactic(auto, unfolding(crate::specs::Scripts::faults, crate::specs::Scripts::commands))]
fn outside_line(alloc: Global, progress: Progress, line: usize, said: Said) -> Result<State, Memory>
    ensures { IfOk result
        (λ next. (rest : List Event) → whole next rest
        ≡ behind_progress progress outside (said_events line said ++ rest)) }
{
    match said {
        Said::Passed => Ok(State::Outside(progress)),
        Said::Begin => Ok(group_begun(alloc, progress, line)),
        Said::BeginDraft => Ok(draft_begun(alloc, progress, line)),
        Said::Changes(edit) => with_change(alloc, progress, line, edit),
        Said::Runs(command) => with_command(progress, line, command),
        Said::End | Said::EndDraft | Said::Drops | Said::Unfit => Ok(stopped(progress, line)),
    }
}

/// The state behind an edit of a group.
#[tactic(auto, unfolding(crate::specs::Scripts::faults, crate::specs::Scripts::commands))]
fn group_edit(group: Group, progress: Progress, line: usize, edit: Edit) -> Result<State, Memory>
    ensures { IfOk result
        (λ next. (rest : List Event) → whole next rest
        ≡ behind_progress progress (in_group group) (change line edit ∷ rest)) }
{
    let progress = limited(progress, EDIT_LIMIT, group.edits.len(), line);
    match with_edit(group, edit) {
        Ok(group) => Ok(State::InGroup(group, progress)),
        Err(wanting) => {
            progress.discard();
            Err(wanting)
        }
    }
}

/// The state behind the end of a group.
#[tactic(auto, unfolding(crate::specs::Scripts::faults, crate::specs::Scripts::commands))]
fn group_ended(group: Group, progress: Progress, line: usize) -> Result<State, Memory>
    ensures { IfOk result
        (λ next. (rest : List Event) → whole next rest
        ≡ behind_progress progress (in_group group) (group_end line ∷ rest)) }
{
    let Group { begin, edits } = group;
    if edits.is_empty() {
        Ok(stopped(progress, begin))
    } else {
        with_pushed(progress, Command::Change(Eco { edits }))
    }
}

/// The state behind what a line in a group says.
#[tactic(auto, unfolding(crate::specs::Scripts::faults, crate::specs::Scripts::commands))]
fn group_line(group: Group, progress: Progress, line: usize, said: Said) -> Result<State, Memory>
    ensures { IfOk result
        (λ next. (rest : List Event) → whole next rest
        ≡ behind_progress progress (in_group group) (said_events line said ++ rest)) }
{
    match said {
        Said::Passed => Ok(State::InGroup(group, progress)),
        Said::Changes(edit) => group_edit(group, progress, line, edit),
        Said::End => group_ended(group, progress, line),
        Said::Begin
        | Said::BeginDraft
        | Said::EndDraft
        | Said::Drops
        | Said::Runs(_)
        | Said::Unfit => {
            group.discard();
            Ok(stopped(progress, line))
        }
    }
}

/// The progress at a line of these bytes.
#[tactic(auto, using(crate::proofs::ProgressLemmas::long_more))]
fn measured(progress: Progress, number: usize, line: &[u8]) -> Progress
    ensures { (place : Place) (rest : List Event) → behind_progress result place rest
        ≡ behind_progress progress place (too_long number line.now ++ rest) }
{
    if line.len() <= LINE_LIMIT {
        progress
    } else {
        noted(progress, Code::ScriptTooLong, number)
    }
}

/// The state behind what a line says.
fn behind(
    alloc: Global,
    state: State,
    number: usize,
    line: &[u8],
    said: Said,
) -> Result<State, Memory>
    ensures { IfOk result
        (λ next. (rest : List Event) → whole next rest
        ≡ whole state (too_long number line.now ++ (said_events number said ++ rest))) }
{
    match state {
        State::Outside(progress) => {
            outside_line(alloc, measured(progress, number, line), number, said)
        }
        State::InGroup(group, progress) => {
            group_line(group, measured(progress, number, line), number, said)
        }
        State::InDraft(draft, progress) => {
            draft_line(alloc, draft, measured(progress, number, line), number, said)
        }
        State::InDraftGroup(draft, group, progress) => {
            draft_group_line(draft, group, measured(progress, number, line), number, said)
        }
        State::Stopped(progress) => Ok(State::Stopped(progress)),
    }
}

/// The state behind a line.
fn step(alloc: Global, state: State, number: usize, line: &[u8]) -> Result<State, Memory>
    ensures { IfOk result
        (λ next. (rest : List Event) → whole next rest
        ≡ whole state (too_long number line.now ++ (line_said number line.now ++ rest))) }
{
    match read_line(alloc, line) {
        Ok(said) => behind(alloc, state, number, line, said),
        Err(wanting) => {
            state.discard();
            Err(wanting)
        }
    }
}

fn told(fault: Option<Wrong>, commands: Items<Command>) -> Result<Script, ReadFault>
    ensures { result ≡ told fault commands }
{
    match fault {
        None => Ok(Script { commands }),
        Some(wrong) => Err(wrong.told()),
    }
}

/// What is told of a text that ends in a group or a draft.
fn told_open(progress: Progress, begin: usize) -> Result<Script, ReadFault>
    ensures { result ≡ told (lesser progress.fault (bad begin)) progress.commands }
{
    let open = noted(progress, Code::ScriptBadCommand, begin);
    told(open.fault, open.commands)
}

#[tactic(auto, using(crate::proofs::ProgressLemmas::ending), unfolding(crate::specs::Scripts::faults, crate::specs::Scripts::commands))]
fn at_end(state: State) -> Result<Script, ReadFault>
    ensures { result ≡ whole state [] }
{
    match state {
        State::Outside(progress) => told(progress.fault, progress.commands),
        State::InGroup(group, progress) => told_open(progress, group.begin),
        State::InDraft(draft, progress) => told_open(progress, draft.begin),
        State::InDraftGroup(draft, group, progress) => {
            let open = noted(progress, Code::ScriptBadCommand, draft.begin);
            told_open(open, group.begin)
        }
        State::Stopped(progress) => told(progress.fault, progress.commands),
    }
}

/// The script of a text, line by line.
#[tactic(auto, using(crate::proofs::LineCount::few_lines), unfolding(crate::specs::Scripts::events))]
fn whole_script(alloc: Global, bytes: &[u8]) -> Result<Script, ReadFault>
    ensures { Tells result (script_of bytes.now) }
{
    let mut lines = Lines::new(bytes);
    let mut number = 1;
    let mut state = State::Outside(Progress {
        commands: Items::new(alloc),
        fault: None,
    });
    while let Some(line) = lines.next() {
        state = step(alloc, state, number, line.text)?;
        number += 1;
    }
    at_end(state)
}

/// The script of a text: a command a line, edits from `begin_eco` to `commit_eco`, which are one
/// command, or trials from `begin_what_if` to `end_what_if`, which are one, too: edits, groups of
/// edits, `drop_last` and plain questions. Words are separated by blanks and tabs; lines without a
/// word and lines whose first word begins with `#` are passed over. The edits of a command that
/// changes the design, and those of a trial, are such as `eco_journal::read_eco` gives.
///
/// # Errors
///
/// The least of the faults; their places are line numbers, from 1. `C1`: a line that is no command or
/// may not stand in its place (a question inside a group; in a draft a command that is no trial), a
/// group or a draft that is empty or has no end (at the line of its begin). `C2`: the 10,001st command,
/// the 1,001st edit of a group, the 101st trial of a draft, or a line above 65,536 bytes. Or want of
/// memory.
pub fn read_script(alloc: Global, bytes: &[u8]) -> Result<Script, ReadFault>
    ensures value { Tells result (script_of bytes.now) }
    ensures kept { IfOk result (λ script. are_answerable script ≡ true) }
{
    whole_script(alloc, bytes)
}
