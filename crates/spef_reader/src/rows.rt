//! The rows of a net: what stands between its name and its end.

ghost use Rattle.std.specs.Prelude.{◌≡◌, ◌≤◌, length, drop};
ghost use Rattle.std.specs.List.{prefix_len};
ghost use Rattle.spef_reader.specs.Faults.{is_of_net, rows_of, begins_end, is_whole_net};

use crate::events::Event;

#[tactic(auto, unfolding(crate::specs::Faults::is_of_net))]
fn is_of_net(event: &Event) -> bool
    ensures { result ≡ is_of_net event.now }
{
    match event {
        Event::Net(_, _, _) | Event::End => false,
        _ => true,
    }
}

#[tactic(auto, using(std::proofs::lemmas::List::drop_more, crate::proofs::RowLemmas::row_ends, crate::proofs::RowLemmas::row_goes_on))]
fn rows_len(events: &[Event]) -> usize
    ensures value { result ≡ prefix_len is_of_net events.now }
    ensures within { result ≤ length events.now }
{
    for (i, event) in events.iter().enumerate() {
        if !is_of_net(event) {
            return i;
        }
    }
    events.len()
}

/// The rows of the net whose name stands before these events.
pub(crate) fn rows_of(events: &[Event]) -> &[Event]
    ensures { result.now ≡ rows_of events.now }
{
    events.split_at(rows_len(events)).0
}

fn begins_end(events: &[Event]) -> bool
    ensures { result ≡ begins_end events.now }
{
    match events.split_first() {
        Some((Event::End, _)) => true,
        _ => false,
    }
}

/// Whether the net's end stands behind its rows.
pub(crate) fn is_whole_net(events: &[Event]) -> bool
    ensures { result ≡ is_whole_net events.now }
{
    begins_end(events.split_at(rows_len(events)).1)
}
