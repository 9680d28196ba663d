//! The trials of a draft, line by line.

ghost use Rattle.std.specs.Prelude.{◌≡◌, ◌++◌, ◌∷◌, [], List, true, length, IfOk};
ghost use Rattle.timing_defs.specs.declared.scripts.Command.TheVariants.{Ask};
ghost use Rattle.script_reader.specs.Words.{may_be_tried};
ghost use Rattle.script_reader.specs.Scripts.{Event, single, change, group_begin, group_end, draft_end, drafted, trial};
ghost use Rattle.script_reader.specs.Progress.{said_events, in_draft, in_draft_group, behind_progress, behind_limit, whole};

use crate::lines::Said;
use crate::states::{
    Draft, EDIT_LIMIT, Group, Progress, State, eco_of, limited, stopped, with_edit, with_pushed,
    with_trial,
};
use sta_units::Memory;
use std::alloc::Global;
use timing_defs::{Command, Eco, Edit, Items, Query, Trial};

/// The greatest number of trials of a draft.
pub(crate) const TRIAL_LIMIT: usize = 100;

/// Whether a draft may be asked a question: any but one about a draft.
pub(crate) fn may_be_tried(query: &Query) -> bool
    ensures { result ≡ may_be_tried query.now }
{
    !matches!(query, Query::WhatIf { .. })
}

/// The state behind a trial that a line says.
fn tried(draft: Draft, progress: Progress, line: usize, trial: Trial) -> Result<State, Memory>
    ensures { IfOk result
        (λ next. (rest : List Event) → whole next rest
        ≡ behind_limit progress 100 (length draft.trials) line
        (drafted draft.begin (draft.trials ++ trial ∷ [])) rest) }
{
    let progress = limited(progress, TRIAL_LIMIT, draft.trials.len(), line);
    match with_trial(draft, trial) {
        Ok(draft) => Ok(State::InDraft(draft, progress)),
        Err(wanting) => {
            progress.discard();
            Err(wanting)
        }
    }
}

/// The state behind an edit by itself, which is tried.
#[tactic(auto, unfolding(crate::specs::Scripts::faults, crate::specs::Scripts::commands))]
fn edit_tried(
    alloc: Global,
    draft: Draft,
    progress: Progress,
    line: usize,
    edit: Edit,
) -> Result<State, Memory>
    ensures { IfOk result
        (λ next. (rest : List Event) → whole next rest
        ≡ behind_progress progress (in_draft draft) (change line edit ∷ rest)) }
{
    match eco_of(alloc, edit) {
        Ok(eco) => tried(draft, progress, line, Trial::Try(eco)),
        Err(wanting) => {
            draft.discard();
            progress.discard();
            Err(wanting)
        }
    }
}

/// The state behind a question.
#[tactic(auto, unfolding(crate::specs::Scripts::faults, crate::specs::Scripts::commands))]
fn question_tried(
    draft: Draft,
    progress: Progress,
    line: usize,
    query: Query,
) -> Result<State, Memory>
    ensures { IfOk result
        (λ next. (rest : List Event) → whole next rest
        ≡ behind_progress progress (in_draft draft) (single line (Ask query) ∷ rest)) }
{
    if may_be_tried(&query) {
        tried(draft, progress, line, Trial::Ask(query))
    } else {
        draft.discard();
        Ok(stopped(progress, line))
    }
}

/// The state behind a command, of which a draft takes questions alone.
#[tactic(auto, unfolding(crate::specs::Scripts::faults, crate::specs::Scripts::commands))]
fn command_tried(
    draft: Draft,
    progress: Progress,
    line: usize,
    command: Command,
) -> Result<State, Memory>
    ensures { IfOk result
        (λ next. (rest : List Event) → whole next rest
        ≡ behind_progress progress (in_draft draft) (single line command ∷ rest)) }
{
    match command {
        Command::Ask(query) => question_tried(draft, progress, line, query),
        Command::Take | Command::Await { .. } | Command::Change(_) => {
            draft.discard();
            Ok(stopped(progress, line))
        }
    }
}

/// The state behind the begin of a group of a draft.
#[tactic(auto, unfolding(crate::specs::Scripts::faults, crate::specs::Scripts::commands))]
fn draft_group_begun(alloc: Global, draft: Draft, progress: Progress, line: usize) -> State
    ensures { (rest : List Event) → whole result rest
        ≡ behind_progress progress (in_draft draft) (group_begin line ∷ rest) }
{
    let progress = limited(progress, TRIAL_LIMIT, draft.trials.len(), line);
    let group = Group {
        begin: line,
        edits: Items::new(alloc),
    };
    State::InDraftGroup(draft, group, progress)
}

/// The state behind the end of a draft.
#[tactic(auto, unfolding(crate::specs::Scripts::faults, crate::specs::Scripts::commands))]
fn draft_ended(draft: Draft, progress: Progress, line: usize) -> Result<State, Memory>
    ensures { IfOk result
        (λ next. (rest : List Event) → whole next rest
        ≡ behind_progress progress (in_draft draft) (draft_end line ∷ rest)) }
{
    let Draft { begin, trials } = draft;
    if trials.is_empty() {
        Ok(stopped(progress, begin))
    } else {
        with_pushed(progress, Command::Ask(Query::WhatIf { items: trials }))
    }
}

/// The state behind what a line in a draft says.
#[tactic(auto, unfolding(crate::specs::Scripts::faults, crate::specs::Scripts::commands))]
pub(crate) fn draft_line(
    alloc: Global,
    draft: Draft,
    progress: Progress,
    line: usize,
    said: Said,
) -> Result<State, Memory>
    ensures { IfOk result
        (λ next. (rest : List Event) → whole next rest
        ≡ behind_progress progress (in_draft draft) (said_events line said ++ rest)) }
{
    match said {
        Said::Passed => Ok(State::InDraft(draft, progress)),
        Said::Begin => Ok(draft_group_begun(alloc, draft, progress, line)),
        Said::EndDraft => draft_ended(draft, progress, line),
        Said::Drops => tried(draft, progress, line, Trial::Drop),
        Said::Changes(edit) => edit_tried(alloc, draft, progress, line, edit),
        Said::Runs(command) => command_tried(draft, progress, line, command),
        Said::End | Said::BeginDraft | Said::Unfit => {
            draft.discard();
            Ok(stopped(progress, line))
        }
    }
}

/// The state behind an edit of a group of a draft.
#[tactic(auto, unfolding(crate::specs::Scripts::faults, crate::specs::Scripts::commands))]
fn draft_group_edit(
    draft: Draft,
    group: Group,
    progress: Progress,
    line: usize,
    edit: Edit,
) -> Result<State, Memory>
    ensures { IfOk result
        (λ next. (rest : List Event) → whole next rest
        ≡ behind_progress progress (in_draft_group draft group) (change line edit ∷ rest)) }
{
    let progress = limited(progress, EDIT_LIMIT, group.edits.len(), line);
    match with_edit(group, edit) {
        Ok(group) => Ok(State::InDraftGroup(draft, group, progress)),
        Err(wanting) => {
            draft.discard();
            progress.discard();
            Err(wanting)
        }
    }
}

/// The state behind the end of a group of a draft, which is tried.
#[tactic(auto, unfolding(crate::specs::Scripts::faults, crate::specs::Scripts::commands))]
fn draft_group_ended(
    draft: Draft,
    group: Group,
    progress: Progress,
    line: usize,
) -> Result<State, Memory>
    ensures { IfOk result
        (λ next. (rest : List Event) → whole next rest
        ≡ behind_progress progress (in_draft_group draft group) (group_end line ∷ rest)) }
{
    let Group { begin, edits } = group;
    if edits.is_empty() {
        draft.discard();
        return Ok(stopped(progress, begin));
    }
    match with_trial(draft, Trial::Try(Eco { edits })) {
        Ok(draft) => Ok(State::InDraft(draft, progress)),
        Err(wanting) => {
            progress.discard();
            Err(wanting)
        }
    }
}

/// The state behind what a line in a group of a draft says.
#[tactic(auto, unfolding(crate::specs::Scripts::faults, crate::specs::Scripts::commands))]
pub(crate) fn draft_group_line(
    draft: Draft,
    group: Group,
    progress: Progress,
    line: usize,
    said: Said,
) -> Result<State, Memory>
    ensures { IfOk result
        (λ next. (rest : List Event) → whole next rest
        ≡ behind_progress progress (in_draft_group draft group) (said_events line said ++ rest)) }
{
    match said {
        Said::Passed => Ok(State::InDraftGroup(draft, group, progress)),
        Said::Changes(edit) => draft_group_edit(draft, group, progress, line, edit),
        Said::End => draft_group_ended(draft, group, progress, line),
        Said::Begin
        | Said::BeginDraft
        | Said::EndDraft
        | Said::Drops
        | Said::Runs(_)
        | Said::Unfit => {
            draft.discard();
            group.discard();
            Ok(stopped(progress, line))
        }
    }
}
