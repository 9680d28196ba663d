//! Pieces of a level, one for each thread, and how the items are cut into them and into blocks.

ghost use Rattle.std.specs.Prelude.{◌≡◌, ◌+◌, ◌<◌, ◌≤◌, ◌^◌};

/// Some pieces of a level that follow each other, by the number of the first.
#[derive(Clone, Copy, Drop)]
pub(crate) struct Pieces {
    pub(crate) level: u32,
    pub(crate) first: u32,
    pub(crate) count: u32,
}

impl Pieces {
    /// The pieces but the last, and the last one.
    pub(crate) fn but_last(self) -> (Pieces, Pieces)
        requires some { 1 ≤ self.count }
        requires numbers { self.first + self.count < 2 ^ 32 }
        ensures front_first { result.0.first ≡ self.first }
        ensures front_count { result.0.count + 1 ≡ self.count }
        ensures back_first { result.1.first + 1 ≡ self.first + self.count }
        ensures back_count { result.1.count ≡ 1 }
    {
        let others = self.count - 1;
        let front = Pieces {
            count: others,
            ..self
        };
        let back = Pieces {
            first: self.first + others,
            count: 1,
            ..self
        };
        (front, back)
    }
}

/// The most blocks of a piece.
const MOST: usize = 8;

/// How the items of a level are cut, in order and evenly: into pieces, and these into blocks.
#[derive(Clone, Copy, Drop)]
pub(crate) struct Cut {
    blocks: usize,
    each: usize,
    ghost some: { 0 < blocks },
}

impl Cut {
    /// The cut of so many items into so many pieces.
    pub(crate) fn of(len: usize, pieces: u32) -> Cut {
        let pieces = (pieces as usize).max(1);
        let each = (len / pieces).clamp(1, MOST);
        Cut {
            blocks: pieces * each,
            each,
        }
    }

    /// How many blocks a piece has.
    pub(crate) fn each(self) -> usize {
        self.each
    }

    /// The place, of so many items, at which a block of a piece begins.
    pub(crate) fn start(self, len: usize, piece: usize, block: usize) -> usize
        ensures { result ≤ len }
    {
        let before = piece.saturating_mul(self.each).saturating_add(block);
        let before = before.min(self.blocks);
        before * (len / self.blocks) + before.min(len % self.blocks)
    }
}
