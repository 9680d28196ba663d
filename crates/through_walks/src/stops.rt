//! Stops, and how many of them a walk has passed.

ghost use Rattle.std.specs.Prelude.{◌≡◌, ◌-◌, ◌||◌, ◌==◌, ◌<◌, ◌^◌, length};
ghost use Rattle.through_walks.specs.Through.{next_stop};

/// A pin to be passed: the places of its rise and fall node in a cone (a number that is no place
/// where it has none there).
#[derive(Clone, Copy, Drop)]
pub struct Stop {
    pub rise: u32,
    pub fall: u32,
}

/// Whether a place is one of the two of a stop.
fn is_at(stop: &Stop, place: u32) -> bool
    ensures { result ≡ ((stop.now.rise == place) || (stop.now.fall == place)) }
{
    stop.rise == place || stop.fall == place
}

/// How many stops are passed behind a place, where `stage` were passed before it.
pub(crate) fn next_stop(stops: &[Stop], stage: u32, place: u32) -> u32
    requires { length stops.now < 2 ^ 32 - 1 }
    ensures { result ≡ next_stop stops.now stage place }
{
    match stops.get(stage as usize) {
        Some(stop) => if is_at(stop, place) { stage + 1 } else { stage },
        None => stage,
    }
}
