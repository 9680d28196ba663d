//! What is read so far, and where the next line stands.

ghost use Rattle.std.specs.Prelude.{◌≡◌, ◌++◌, ◌∷◌, [], List, IfOk};
ghost use Rattle.timing_defs.specs.declared.edits.Edit.{Edit};
ghost use Rattle.timing_defs.specs.declared.scripts.Command.{Command};
ghost use Rattle.sta_text.specs.declared.faults.Wrong.{Wrong};
ghost use Rattle.sta_text.specs.Faults.{lesser, least_from};
ghost use Rattle.script_reader.specs.Scripts.{Event, bad, behind, told};
ghost use Rattle.script_reader.specs.Progress.{behind_command, whole};

use sta_text::{Wrong, lesser};
use sta_units::Memory;
use std::alloc::Global;
use timing_defs::{Code, Command, Eco, Edit, Items, Trial};

/// The greatest number of edits of a group.
pub(crate) const EDIT_LIMIT: usize = 1_000;

/// The commands so far, and the least fault.
#[derive(Drop)]
pub(crate) struct Progress {
    pub(crate) commands: Items<Command>,
    pub(crate) fault: Option<Wrong>,
}

/// A group so far: the line that it began at, and its edits.
#[derive(Drop)]
pub(crate) struct Group {
    pub(crate) begin: usize,
    pub(crate) edits: Items<Edit>,
}

/// A draft so far: the line that it began at, and its trials.
#[derive(Drop)]
pub(crate) struct Draft {
    pub(crate) begin: usize,
    pub(crate) trials: Items<Trial>,
}

/// Where a line stands: outside, in a group, in a draft, in a group of a draft, or behind a line that
/// is no command.
#[derive(Drop)]
pub(crate) enum State {
    Outside(Progress),
    InGroup(Group, Progress),
    InDraft(Draft, Progress),
    InDraftGroup(Draft, Group, Progress),
    Stopped(Progress),
}

impl Progress {
    /// Gives the commands up.
    pub(crate) fn discard(self) {}
}

impl Group {
    /// Gives the edits up.
    pub(crate) fn discard(self) {}
}

impl Draft {
    /// Gives the trials up.
    pub(crate) fn discard(self) {}
}

impl State {
    /// Gives all that was read up.
    pub(crate) fn discard(self) {
        match self {
            State::Outside(progress) | State::Stopped(progress) => progress.discard(),
            State::InGroup(group, progress) => {
                group.discard();
                progress.discard();
            }
            State::InDraft(draft, progress) => {
                draft.discard();
                progress.discard();
            }
            State::InDraftGroup(draft, group, progress) => {
                draft.discard();
                group.discard();
                progress.discard();
            }
        }
    }
}

/// The ECO of one edit.
pub(crate) fn eco_of(alloc: Global, edit: Edit) -> Result<Eco, Memory>
    ensures { IfOk result (λ eco. eco ≡ record { edits = edit ∷ [] }) }
{
    let mut edits = Items::new(alloc);
    match edits.push(edit) {
        Ok(()) => Ok(Eco { edits }),
        Err(wanting) => Err(wanting),
    }
}

/// The progress with a fault at a line.
pub(crate) fn noted(progress: Progress, code: Code, line: usize) -> Progress
    ensures commands { result.commands ≡ progress.commands }
    ensures fault { result.fault ≡ lesser progress.fault (record { code = code; at = line }) }
{
    let fault = lesser(progress.fault, Wrong { code, at: line });
    Progress {
        commands: progress.commands,
        fault,
    }
}

/// The state behind a line that may not stand there, with its fault at a line.
#[tactic(auto, using(crate::proofs::ProgressLemmas::stopping))]
pub(crate) fn stopped(progress: Progress, line: usize) -> State
    ensures { (rest : List Event) (all : List Command) → whole result rest
        ≡ told (least_from progress.fault (bad line ∷ [])) all }
{
    State::Stopped(noted(progress, Code::ScriptBadCommand, line))
}

/// The progress where at least so many of its kind stand before a line, of which that many may.
#[tactic(auto, using(crate::proofs::ProgressLemmas::excess_more))]
pub(crate) fn limited(progress: Progress, limit: usize, before: usize, line: usize) -> Progress
    ensures commands { result.commands ≡ progress.commands }
    ensures fault { (rest : List Wrong) → least_from result.fault rest
        ≡ least_from progress.fault (behind limit before line ++ rest) }
{
    if limit <= before {
        noted(progress, Code::ScriptTooLong, line)
    } else {
        progress
    }
}

/// The state behind one command more.
#[tactic(auto, using(crate::proofs::ProgressLemmas::pushed))]
pub(crate) fn with_pushed(progress: Progress, command: Command) -> Result<State, Memory>
    ensures { IfOk result
        (λ next. (rest : List Event) → whole next rest ≡ behind_command progress command rest) }
{
    let Progress {
        mut commands,
        fault,
    } = progress;
    match commands.push(command) {
        Ok(()) => Ok(State::Outside(Progress { commands, fault })),
        Err(wanting) => {
            Progress { commands, fault }.discard();
            Err(wanting)
        }
    }
}

/// The group with one edit more.
pub(crate) fn with_edit(mut group: Group, edit: Edit) -> Result<Group, Memory>
    ensures begin { IfOk result (λ more. more.begin ≡ group.begin) }
    ensures edits { IfOk result (λ more. more.edits ≡ group.edits ++ edit ∷ []) }
{
    match group.edits.push(edit) {
        Ok(()) => Ok(group),
        Err(wanting) => {
            group.discard();
            Err(wanting)
        }
    }
}

/// The draft with one trial more.
pub(crate) fn with_trial(mut draft: Draft, trial: Trial) -> Result<Draft, Memory>
    ensures begin { IfOk result (λ more. more.begin ≡ draft.begin) }
    ensures trials { IfOk result (λ more. more.trials ≡ draft.trials ++ trial ∷ []) }
{
    match draft.trials.push(trial) {
        Ok(()) => Ok(draft),
        Err(wanting) => {
            draft.discard();
            Err(wanting)
        }
    }
}
