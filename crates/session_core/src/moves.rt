//! What an event makes of its session.

ghost use Rattle.std.specs.Prelude.{◌≡◌, ◌+◌, ◌-◌, ◌<◌, ◌≤◌, ◌^◌, ◌∷◌, [], ◌++◌, nat_lt, IfOk, OnOk, OnErr};
ghost use Rattle.std.specs.List.{list_all};
ghost use Rattle.std.specs.Option.{option_copied, option_map};
ghost use Rattle.session_core.specs.Machine.{next_command, with_look, draft_on, with_row, draft_after_level, after_take, after_level, after_publish, entries_after, last_of, await_answer, answer_to, after_answer};

use crate::events::Event;
use crate::lists::push_both;
use crate::rows::{CoreDraft, CoreRow, CoreSession, RowSort};
use sta_units::{Again, Memory};
use std::alloc::Global;
use timing_defs::{Command, Entry, Items, Script};

/// A draft on a version, of which no level is merged yet.
fn draft_on(base: u64) -> Option<CoreDraft>
    ensures { result ≡ draft_on base }
{
    Some(CoreDraft { base, levels: 0 })
}

/// The draft after one level more, where that level comes next.
fn with_level(draft: CoreDraft, level: u64) -> CoreDraft
    ensures { result ≡ draft_after_level level draft }
{
    if draft.levels == level && level < u64::MAX {
        CoreDraft {
            base: draft.base,
            levels: level + 1,
        }
    } else {
        draft
    }
}

/// The last `count` numbers.
fn last_of(alloc: Global, count: u32, numbers: &[u64]) -> Result<Items<u64>, Memory>
    ensures { IfOk result (λ items. items ≡ last_of count numbers.now) }
{
    let from = numbers.len().saturating_sub(count as usize);
    Items::from_slice(alloc, &numbers[from..])
}

/// Whether all numbers are below `number`.
fn are_below(number: u64, numbers: &[u64]) -> bool
    ensures { result ≡ list_all (λ n. nat_lt n number) numbers.now }
{
    numbers.iter().all(|n| *n < number)
}

/// The row of an `await` for `number` with `looks` looks, if it may have one now.
fn await_answer(
    alloc: Global,
    number: u64,
    looks: u32,
    held: u64,
    seen: &[u64],
) -> Result<Option<RowSort>, Memory>
    ensures { IfOk result (λ sort. sort ≡ await_answer number looks held seen.now) }
{
    if !seen.is_empty() && number <= held {
        return Ok(Some(RowSort::Reached));
    }
    if looks as usize <= seen.len() && are_below(number, seen) {
        return Ok(Some(RowSort::NotYet(last_of(alloc, looks, seen)?)));
    }
    Ok(None)
}

impl CoreSession {
    /// The next command, if the script has one more.
    fn next_command<'s>(&self, script: &'s Script) -> Option<&'s Command>
        ensures { option_copied result ≡ next_command script.now self.now }
    {
        script.commands.get(self.next.saturating_sub(1) as usize)
    }

    /// Looks at the newest version and holds it.
    fn look(&mut self, number: u64) -> Result<(), Memory>
        ensures ok { OnOk result (self.new ≡ with_look number self.old) }
        ensures err { OnErr result (self.new ≡ self.old) }
    {
        self.looks.push(number)?;
        self.held = Some(number);
        Ok(())
    }

    /// Looks at the newest version, and begins the draft on it.
    fn look_and_draft(&mut self, number: u64) -> Result<(), Memory>
        ensures ok { OnOk result
            (self.new ≡ record (with_look number self.old) { draft = draft_on number }) }
        ensures err { OnErr result (self.new ≡ self.old) }
    {
        self.look(number)?;
        self.draft = draft_on(number);
        Ok(())
    }

    /// Takes a snapshot of the newest version, where the session may.
    pub(crate) fn take(&mut self, script: &Script, newest: u64) -> Result<(), Memory>
        ensures ok { OnOk result
            (self.new ≡ after_take newest (next_command script.now self.old) self.old) }
        ensures err { OnErr result (self.new ≡ self.old) }
    {
        match self.next_command(script) {
            Some(Command::Change(_)) => self.look_and_draft(newest),
            Some(Command::Take) | Some(Command::Await { .. }) => self.look(newest),
            Some(Command::Ask(_)) | None => match self.held {
                Some(_) => Ok(()),
                None => self.look(newest),
            },
        }
    }

    /// Merges a level of the draft, where it comes next. Takes no memory.
    pub(crate) fn merge(&mut self, level: u64)
        ensures { self.new ≡ after_level level self.old }
    {
        if let Some(draft) = self.draft {
            self.draft = Some(with_level(draft, level));
        }
    }

    /// The next command has its row at `number`: the looks are spent, the draft ends. Takes no memory.
    fn go_on(&mut self, alloc: Global, number: u64)
        requires { self.old.next < 2 ^ 32 - 1 }
        ensures { self.new
            ≡ record {
              next = self.old.next + 1;
              held = Some number;
              looks = [];
              draft = None;
              rows =
                  self.old.rows;
            } }
    {
        self.next += 1;
        self.held = Some(number);
        self.looks = Items::new(alloc);
        self.draft = None;
    }

    /// Adds the row of the next command, and goes on to the one after it.
    fn record_row(&mut self, alloc: Global, number: u64, sort: RowSort) -> Result<(), Memory>
        requires { self.old.next < 2 ^ 32 - 1 }
        ensures ok { OnOk result (self.new ≡ with_row number sort self.old) }
        ensures err { OnErr result (self.new ≡ self.old) }
    {
        let row = CoreRow {
            command: self.next,
            number,
            sort,
        };
        self.rows.push(row)?;
        self.go_on(alloc, number);
        Ok(())
    }

    /// Adds an entry to the journal with its accepted row at `number`, or neither.
    fn accept(
        &mut self,
        alloc: Global,
        entries: &mut Items<Entry>,
        entry: Entry,
        number: u64,
    ) -> Result<(), Memory>
        requires { self.old.next < 2 ^ 32 - 1 }
        ensures session_ok { OnOk result (self.new ≡ with_row number RowSort.Accepted self.old) }
        ensures entries_ok { OnOk result (entries.new ≡ entries.old ++ entry ∷ []) }
        ensures session_err { OnErr result (self.new ≡ self.old) }
        ensures entries_err { OnErr result (entries.new ≡ entries.old) }
    {
        let row = CoreRow {
            command: self.next,
            number,
            sort: RowSort::Accepted,
        };
        push_both(alloc, entries, entry, &mut self.rows, row)?;
        self.go_on(alloc, number);
        Ok(())
    }

    /// Publishes the draft of session `session` where its base is the newest version; one on an older
    /// version begins again on the newest.
    pub(crate) fn publish(
        &mut self,
        alloc: Global,
        script: &Script,
        session: u32,
        newest: u64,
        entries: &mut Items<Entry>,
    ) -> Result<(), Memory>
        requires within { self.old.next < 2 ^ 32 - 1 }
        requires room { newest < 2 ^ 64 - 1 }
        ensures session_ok { OnOk result
            (self.new
            ≡ after_publish newest (next_command script.now self.old) self.old.draft self.old) }
        ensures entries_ok { OnOk result
            (entries.new
            ≡ entries_after newest (next_command script.now self.old) (Event.Publish session)
            self.old entries.old) }
        ensures session_err { OnErr result (self.new ≡ self.old) }
        ensures entries_err { OnErr result (entries.new ≡ entries.old) }
    {
        let (Some(Command::Change(eco)), Some(draft)) = (self.next_command(script), self.draft)
        else {
            return Ok(());
        };
        if draft.base != newest {
            return self.look_and_draft(newest);
        }
        let eco = eco.again(alloc)?;
        self.accept(alloc, entries, Entry { session, eco }, newest + 1)
    }

    /// The sort of the row that the next command may have now at the version `held`, if it may.
    fn answer_to(
        &self,
        alloc: Global,
        script: &Script,
        held: u64,
    ) -> Result<Option<RowSort>, Memory>
        ensures { IfOk result
            (λ sort. sort ≡ answer_to (next_command script.now self.now) held self.now) }
    {
        match self.next_command(script) {
            Some(Command::Take) if !self.looks.is_empty() => Ok(Some(RowSort::Taken)),
            Some(Command::Await { number, looks }) => {
                await_answer(alloc, *number, *looks, held, self.looks.as_slice())
            }
            Some(Command::Ask(_)) => Ok(Some(RowSort::Asked)),
            Some(Command::Change(_)) if self.draft.is_some() => Ok(Some(RowSort::Refused)),
            Some(_) | None => Ok(None),
        }
    }

    /// Answers the next command at the version that is held, where the session may.
    pub(crate) fn answer(&mut self, alloc: Global, script: &Script) -> Result<(), Memory>
        requires { self.old.next < 2 ^ 32 - 1 }
        ensures ok { OnOk result
            (self.new ≡ after_answer (next_command script.now self.old) self.old.held self.old) }
        ensures err { OnErr result (self.new ≡ self.old) }
    {
        let Some(held) = self.held else {
            return Ok(());
        };
        match self.answer_to(alloc, script, held)? {
            Some(sort) => self.record_row(alloc, held, sort),
            None => Ok(()),
        }
    }
}
