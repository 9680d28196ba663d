//! Where a line of a session stands, and what it makes of that.

ghost use Rattle.std.specs.Prelude.{◌≡◌, ◌∷◌, [], ℕ, nat_le, length, IfOk, option_map};
ghost use Rattle.timing_defs.specs.declared.scripts.Command.TheVariants.{Ask};
ghost use Rattle.script_reader.specs.declared.live.Item.TheVariants.{Faulty};
ghost use Rattle.script_reader.specs.Scripts.{long, change, single, group_begin, eco, bad, excess, outside};
ghost use Rattle.script_reader.specs.Progress.{said_events, in_group, in_draft, in_draft_group};
ghost use Rattle.script_reader.specs.Live.{stands, passing_eco, passing_draft, goes_on, asks, fails, more_trials, group_closed, draft_closed, trial_closed, group_event, draft_event, trial_event, live_event, live_said, live_line, live_end};
ghost use Rattle.script_reader.specs.LivePlaces.{place_of, behind_step};

use crate::drafts::{TRIAL_LIMIT, may_be_tried};
use crate::lines::{Said, read_line};
use crate::live::Item;
use crate::scripts::LINE_LIMIT;
use crate::states::{Draft, EDIT_LIMIT, Group, eco_of, with_edit, with_trial};
use sta_text::Wrong;
use sta_units::Memory;
use std::alloc::Global;
use timing_defs::{Code, Command, Eco, Edit, Items, Query, Trial};

/// Where a line stands: outside, in a group, in a draft, in a group of a draft, or in what is left of
/// a group or a draft that is passed over.
#[derive(Drop)]
pub(crate) enum Standing {
    Outside,
    InGroup(Group),
    InDraft(Draft),
    InDraftGroup(Draft, Group),
    PassingGroup,
    PassingDraft,
}

/// Where the line behind stands, and the item that a line ended, if it ended one.
#[derive(Drop)]
pub(crate) struct Step {
    pub(crate) place: Standing,
    pub(crate) item: Option<Item>,
}

impl Standing {
    /// The line at which what is open began.
    #[tactic(auto, unfolding(crate::specs::Live::live_end))]
    pub(crate) fn open_from(&self) -> Option<usize>
        ensures { live_end (place_of self.now) ≡ option_map (λ n. Faulty (bad n)) result }
    {
        match self {
            Standing::InGroup(group) => Some(group.begin),
            Standing::InDraft(draft) => Some(draft.begin),
            Standing::InDraftGroup(draft, _) => Some(draft.begin),
            Standing::Outside | Standing::PassingGroup | Standing::PassingDraft => None,
        }
    }
}

/// A line that ends no item.
fn goes_on(place: Standing) -> Step
    ensures { behind_step result ≡ goes_on (place_of place) }
{
    Step { place, item: None }
}

/// A line that ends a command.
fn asks(command: Command) -> Step
    ensures { behind_step result ≡ asks command }
{
    Step {
        place: Standing::Outside,
        item: Some(Item::Asked(command)),
    }
}

/// C1 at a line, behind which a place holds.
fn unfit(place: Standing, line: usize) -> Step
    ensures { behind_step result ≡ fails (place_of place) (bad line) }
{
    let wrong = Wrong {
        code: Code::ScriptBadCommand,
        at: line,
    };
    Step {
        place,
        item: Some(Item::Faulty(wrong)),
    }
}

/// C2 at a line, behind which a place holds.
fn crowded(place: Standing, line: usize) -> Step
    ensures { behind_step result ≡ fails (place_of place) (excess line) }
{
    let wrong = Wrong {
        code: Code::ScriptTooLong,
        at: line,
    };
    Step {
        place,
        item: Some(Item::Faulty(wrong)),
    }
}

fn group_begun(alloc: Global, line: usize) -> Group
    ensures { result ≡ record { begin = line; edits = [] } }
{
    Group {
        begin: line,
        edits: Items::new(alloc),
    }
}

fn draft_begun(alloc: Global, line: usize) -> Draft
    ensures { result ≡ record { begin = line; trials = [] } }
{
    Draft {
        begin: line,
        trials: Items::new(alloc),
    }
}

/// An edit by itself, which is a command.
fn edit_asked(alloc: Global, edit: Edit) -> Result<Step, Memory>
    ensures { IfOk result (λ step. behind_step step ≡ asks (eco (edit ∷ []))) }
{
    match eco_of(alloc, edit) {
        Ok(eco) => Ok(asks(Command::Change(eco))),
        Err(wanting) => Err(wanting),
    }
}

/// What a line outside says.
fn outside_said(alloc: Global, line: usize, said: Said) -> Result<Step, Memory>
    ensures { IfOk result
        (λ step. behind_step step ≡ live_said (stands outside) (said_events line said)) }
{
    match said {
        Said::Passed => Ok(goes_on(Standing::Outside)),
        Said::Begin => Ok(goes_on(Standing::InGroup(group_begun(alloc, line)))),
        Said::BeginDraft => Ok(goes_on(Standing::InDraft(draft_begun(alloc, line)))),
        Said::Changes(edit) => edit_asked(alloc, edit),
        Said::Runs(command) => Ok(asks(command)),
        Said::End | Said::EndDraft | Said::Drops | Said::Unfit => Ok(unfit(
            Standing::Outside,
            line,
        )),
    }
}

/// Whether a group has as many edits as it may.
fn is_full(group: &Group) -> bool
    ensures { result ≡ nat_le 1000 (length group.now.edits) }
{
    EDIT_LIMIT <= group.edits.len()
}

/// Whether a draft has as many trials as it may.
fn is_full_draft(draft: &Draft) -> bool
    ensures { result ≡ nat_le 100 (length draft.now.trials) }
{
    TRIAL_LIMIT <= draft.trials.len()
}

/// An edit of a group.
fn group_edited(group: Group, line: usize, edit: Edit) -> Result<Step, Memory>
    ensures { IfOk result
        (λ step. behind_step step ≡ group_event group.begin group.edits (change line edit)) }
{
    if is_full(&group) {
        group.discard();
        drop(edit);
        return Ok(crowded(Standing::PassingGroup, line));
    }
    match with_edit(group, edit) {
        Ok(group) => Ok(goes_on(Standing::InGroup(group))),
        Err(wanting) => Err(wanting),
    }
}

/// The end of a group.
fn group_ended(group: Group) -> Step
    ensures { behind_step result ≡ group_closed group.begin group.edits }
{
    let Group { begin, edits } = group;
    if edits.is_empty() {
        drop(edits);
        unfit(Standing::Outside, begin)
    } else {
        asks(Command::Change(Eco { edits }))
    }
}

/// What a line in a group says.
fn group_said(group: Group, line: usize, said: Said) -> Result<Step, Memory>
    ensures { IfOk result
        (λ step. behind_step step ≡ live_said (stands (in_group group)) (said_events line said)) }
{
    match said {
        Said::Passed => Ok(goes_on(Standing::InGroup(group))),
        Said::Changes(edit) => group_edited(group, line, edit),
        Said::End => Ok(group_ended(group)),
        Said::Begin
        | Said::BeginDraft
        | Said::EndDraft
        | Said::Drops
        | Said::Runs(_)
        | Said::Unfit => {
            group.discard();
            Ok(unfit(Standing::PassingGroup, line))
        }
    }
}

/// One trial more of a draft.
fn trial_added(draft: Draft, line: usize, trial: Trial) -> Result<Step, Memory>
    ensures { IfOk result
        (λ step. behind_step step ≡ more_trials line draft.begin draft.trials trial) }
{
    if is_full_draft(&draft) {
        draft.discard();
        drop(trial);
        return Ok(crowded(Standing::PassingDraft, line));
    }
    match with_trial(draft, trial) {
        Ok(draft) => Ok(goes_on(Standing::InDraft(draft))),
        Err(wanting) => Err(wanting),
    }
}

/// An edit by itself in a draft, which is tried.
fn edit_tried(alloc: Global, draft: Draft, line: usize, edit: Edit) -> Result<Step, Memory>
    ensures { IfOk result
        (λ step. behind_step step ≡ draft_event draft.begin draft.trials (change line edit)) }
{
    match eco_of(alloc, edit) {
        Ok(eco) => trial_added(draft, line, Trial::Try(eco)),
        Err(wanting) => {
            draft.discard();
            Err(wanting)
        }
    }
}

/// A command in a draft, which takes plain questions alone.
fn command_tried(draft: Draft, line: usize, command: Command) -> Result<Step, Memory>
    ensures { IfOk result
        (λ step. behind_step step ≡ draft_event draft.begin draft.trials (single line command)) }
{
    match command {
        Command::Ask(query) => question_tried(draft, line, query),
        Command::Take | Command::Await { .. } | Command::Change(_) => {
            draft.discard();
            Ok(unfit(Standing::PassingDraft, line))
        }
    }
}

/// A question in a draft.
fn question_tried(draft: Draft, line: usize, query: Query) -> Result<Step, Memory>
    ensures { IfOk result
        (λ step. behind_step step
        ≡ draft_event draft.begin draft.trials (single line (Ask query))) }
{
    if may_be_tried(&query) {
        trial_added(draft, line, Trial::Ask(query))
    } else {
        draft.discard();
        drop(query);
        Ok(unfit(Standing::PassingDraft, line))
    }
}

/// The begin of a group of a draft.
fn draft_group_begun(alloc: Global, draft: Draft, line: usize) -> Step
    ensures { behind_step result ≡ draft_event draft.begin draft.trials (group_begin line) }
{
    if is_full_draft(&draft) {
        draft.discard();
        crowded(Standing::PassingDraft, line)
    } else {
        goes_on(Standing::InDraftGroup(draft, group_begun(alloc, line)))
    }
}

/// The end of a draft.
fn draft_ended(draft: Draft) -> Step
    ensures { behind_step result ≡ draft_closed draft.begin draft.trials }
{
    let Draft { begin, trials } = draft;
    if trials.is_empty() {
        drop(trials);
        unfit(Standing::Outside, begin)
    } else {
        asks(Command::Ask(Query::WhatIf { items: trials }))
    }
}

/// What a line in a draft says.
fn draft_said(alloc: Global, draft: Draft, line: usize, said: Said) -> Result<Step, Memory>
    ensures { IfOk result
        (λ step. behind_step step ≡ live_said (stands (in_draft draft)) (said_events line said)) }
{
    match said {
        Said::Passed => Ok(goes_on(Standing::InDraft(draft))),
        Said::Begin => Ok(draft_group_begun(alloc, draft, line)),
        Said::EndDraft => Ok(draft_ended(draft)),
        Said::Drops => trial_added(draft, line, Trial::Drop),
        Said::Changes(edit) => edit_tried(alloc, draft, line, edit),
        Said::Runs(command) => command_tried(draft, line, command),
        Said::End | Said::BeginDraft | Said::Unfit => {
            draft.discard();
            Ok(unfit(Standing::PassingDraft, line))
        }
    }
}

/// An edit of a group of a draft.
fn draft_group_edited(draft: Draft, group: Group, line: usize, edit: Edit) -> Result<Step, Memory>
    ensures { IfOk result
        (λ step. behind_step step
        ≡ trial_event draft.begin draft.trials group.begin group.edits (change line edit)) }
{
    if is_full(&group) {
        draft.discard();
        group.discard();
        drop(edit);
        return Ok(crowded(Standing::PassingDraft, line));
    }
    match with_edit(group, edit) {
        Ok(group) => Ok(goes_on(Standing::InDraftGroup(draft, group))),
        Err(wanting) => {
            draft.discard();
            Err(wanting)
        }
    }
}

/// The end of a group of a draft, which is tried.
fn draft_group_ended(draft: Draft, group: Group) -> Result<Step, Memory>
    ensures { IfOk result
        (λ step. behind_step step ≡ trial_closed draft.begin draft.trials group.begin group.edits) }
{
    let Group { begin, edits } = group;
    if edits.is_empty() {
        draft.discard();
        drop(edits);
        return Ok(unfit(Standing::PassingDraft, begin));
    }
    match with_trial(draft, Trial::Try(Eco { edits })) {
        Ok(draft) => Ok(goes_on(Standing::InDraft(draft))),
        Err(wanting) => Err(wanting),
    }
}

/// C1 at a line in a group of a draft, which gives both up; behind it a place holds.
fn draft_group_unfit(draft: Draft, group: Group, place: Standing, line: usize) -> Step
    ensures { behind_step result ≡ fails (place_of place) (bad line) }
{
    draft.discard();
    group.discard();
    unfit(place, line)
}

/// What a line in a group of a draft says. The draft's end gives it up, and ends it.
fn draft_group_said(draft: Draft, group: Group, line: usize, said: Said) -> Result<Step, Memory>
    ensures { IfOk result
        (λ step. behind_step step
        ≡ live_said (stands (in_draft_group draft group)) (said_events line said)) }
{
    match said {
        Said::Passed => Ok(goes_on(Standing::InDraftGroup(draft, group))),
        Said::Changes(edit) => draft_group_edited(draft, group, line, edit),
        Said::End => draft_group_ended(draft, group),
        Said::EndDraft => Ok(draft_group_unfit(draft, group, Standing::Outside, line)),
        Said::Begin | Said::BeginDraft | Said::Drops | Said::Runs(_) | Said::Unfit => Ok(
            draft_group_unfit(draft, group, Standing::PassingDraft, line),
        ),
    }
}

/// What a line in a group that is passed over says: whether it is the group's end.
fn passing_group_said(said: Said) -> Step
    ensures { (n : ℕ) → behind_step result ≡ live_said passing_eco (said_events n said) }
{
    match said {
        Said::End => goes_on(Standing::Outside),
        Said::Passed
        | Said::Begin
        | Said::BeginDraft
        | Said::EndDraft
        | Said::Drops
        | Said::Changes(_)
        | Said::Runs(_)
        | Said::Unfit => goes_on(Standing::PassingGroup),
    }
}

/// What a line in a draft that is passed over says: whether it is the draft's end.
fn passing_draft_said(said: Said) -> Step
    ensures { (n : ℕ) → behind_step result ≡ live_said passing_draft (said_events n said) }
{
    match said {
        Said::EndDraft => goes_on(Standing::Outside),
        Said::Passed
        | Said::Begin
        | Said::End
        | Said::BeginDraft
        | Said::Drops
        | Said::Changes(_)
        | Said::Runs(_)
        | Said::Unfit => goes_on(Standing::PassingDraft),
    }
}

/// What a line says at its place.
fn said_at(alloc: Global, place: Standing, line: usize, said: Said) -> Result<Step, Memory>
    ensures { IfOk result
        (λ step. behind_step step ≡ live_said (place_of place) (said_events line said)) }
{
    match place {
        Standing::Outside => outside_said(alloc, line, said),
        Standing::InGroup(group) => group_said(group, line, said),
        Standing::InDraft(draft) => draft_said(alloc, draft, line, said),
        Standing::InDraftGroup(draft, group) => draft_group_said(draft, group, line, said),
        Standing::PassingGroup => Ok(passing_group_said(said)),
        Standing::PassingDraft => Ok(passing_draft_said(said)),
    }
}

/// A line that is too long, of which nothing else is looked at.
fn too_long(place: Standing, line: usize) -> Step
    ensures { behind_step result ≡ live_event (place_of place) (long line) }
{
    match place {
        Standing::Outside => crowded(Standing::Outside, line),
        Standing::InGroup(group) => {
            group.discard();
            crowded(Standing::PassingGroup, line)
        }
        Standing::InDraft(draft) => {
            draft.discard();
            crowded(Standing::PassingDraft, line)
        }
        Standing::InDraftGroup(draft, group) => {
            draft.discard();
            group.discard();
            crowded(Standing::PassingDraft, line)
        }
        Standing::PassingGroup => goes_on(Standing::PassingGroup),
        Standing::PassingDraft => goes_on(Standing::PassingDraft),
    }
}

/// What the line of a number, of these bytes, makes of its place.
#[tactic(auto, unfolding(crate::specs::Live::live_line))]
pub(crate) fn heard(
    alloc: Global,
    place: Standing,
    number: usize,
    line: &[u8],
) -> Result<Step, Memory>
    ensures { IfOk result (λ step. behind_step step ≡ live_line (place_of place) number line.now) }
{
    if LINE_LIMIT < line.len() {
        return Ok(too_long(place, number));
    }
    match read_line(alloc, line) {
        Ok(said) => said_at(alloc, place, number, said),
        Err(wanting) => {
            drop(place);
            Err(wanting)
        }
    }
}
