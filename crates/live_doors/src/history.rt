//! What was done at a door, as proofs read it.

ghost use Rattle.std.specs.Prelude.{◌≡◌, [], ◌∷◌, ◌++◌, take};
ghost use Rattle.live_doors.specs.Doors.{heard, kept, said};
ghost use Rattle.live_doors.specs.Marks.{deeds};

use crate::log::Log;
use crate::mark::Mark;
use std::alloc::Global;

/// The deeds of a door. They take no memory.
#[derive(Drop)]
pub(crate) struct History {
    pub(crate) log: Log<Mark, Vec<u8>>,
    nothing: Vec<u8>,
}

#[tactic(auto, using(crate::proofs::Pieces::marks))]
impl History {
    /// The history of nothing.
    pub(crate) fn new(alloc: Global) -> History
        ensures { deeds result ≡ [] }
    {
        History {
            log: Log::new(),
            nothing: Vec::new(alloc),
        }
    }

    /// A line was heard.
    pub(crate) fn hear(&mut self, line: &Vec<u8>)
        ensures { deeds self.new ≡ deeds self.old ++ heard line.now.items ∷ [] }
    {
        self.log = self.log.and(&Mark::Heard, line);
    }

    /// A piece was said.
    pub(crate) fn say(&mut self, piece: &Vec<u8>)
        ensures { deeds self.new ≡ deeds self.old ++ said piece.now.items ∷ [] }
    {
        self.log = self.log.and(&Mark::Said, piece);
    }

    /// Of a piece the first bytes were said, so many of them.
    pub(crate) fn cut(&mut self, piece: &Vec<u8>, count: usize)
        ensures { deeds self.new ≡ deeds self.old ++ said (take count piece.now.items) ∷ [] }
    {
        self.log = self.log.and(&Mark::Cut(count), piece);
    }

    /// A number was kept.
    pub(crate) fn keep(&mut self, number: u64)
        ensures { deeds self.new ≡ deeds self.old ++ kept number ∷ [] }
    {
        self.log = self.log.and(&Mark::Kept(number), &self.nothing);
    }
}
