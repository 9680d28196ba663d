//! The small choices of static timing.

ghost use Rattle.std.specs.Prelude.{◌≡◌};
ghost use Rattle.timing_defs.specs.Netlist.{same_split, same_tran, same_dir};
ghost use Rattle.timing_defs.specs.Kinds.{comb_kind};
ghost use Rattle.timing_defs.specs.Kinds.{data_split, clock_split};
ghost use Rattle.timing_defs.specs.Kinds.{kind_of, other_split};

/// Which library and which bound of an arrival: early is the least, late the greatest.
#[derive(Clone, Copy, Drop)]
pub enum Split {
    Early,
    Late,
}

impl Split {
    /// The kind of tests of which this is the split of the data.
    pub fn kind(self) -> Kind
        ensures { result ≡ kind_of self }
    {
        match self {
            Split::Late => Kind::Setup,
            Split::Early => Kind::Hold,
        }
    }

    /// The other split.
    pub fn other(self) -> Split
        ensures { result ≡ other_split self }
    {
        match self {
            Split::Late => Split::Early,
            Split::Early => Split::Late,
        }
    }

    /// Whether it is that split.
    pub fn is(self, split: Split) -> bool
        ensures { result ≡ same_split self split }
    {
        match self {
            Split::Early => matches!(split, Split::Early),
            Split::Late => matches!(split, Split::Late),
        }
    }
}

/// A transition of a pin. Rise comes before fall.
#[derive(Debug, Clone, Copy, PartialEq, Eq, Default, Drop)]
pub enum Tran {
    #[default]
    Rise,
    Fall,
}

impl Tran {
    /// Whether it is that transition.
    pub fn is(self, tran: Tran) -> bool
        ensures { result ≡ same_tran self tran }
    {
        match self {
            Tran::Rise => matches!(tran, Tran::Rise),
            Tran::Fall => matches!(tran, Tran::Fall),
        }
    }
}

/// A kind of test.
#[derive(Clone, Copy, Drop)]
pub enum Kind {
    Setup,
    Hold,
}

impl Kind {
    /// The split of the data that this kind tests.
    pub fn data_split(self) -> Split
        ensures { result ≡ data_split self }
    {
        match self {
            Kind::Setup => Split::Late,
            Kind::Hold => Split::Early,
        }
    }

    /// The split of the clock against which this kind tests.
    pub fn clock_split(self) -> Split
        ensures { result ≡ clock_split self }
    {
        match self {
            Kind::Setup => Split::Early,
            Kind::Hold => Split::Late,
        }
    }
}

/// A direction of a cell's pin or of a port, as seen from the cell or the module.
#[derive(Clone, Copy, Drop)]
pub enum Dir {
    Input,
    Output,
}

impl Dir {
    /// Whether it is that direction.
    pub fn is(self, dir: Dir) -> bool
        ensures { result ≡ same_dir self dir }
    {
        match self {
            Dir::Input => matches!(dir, Dir::Input),
            Dir::Output => matches!(dir, Dir::Output),
        }
    }
}

/// A kind of cell arc: combinational, or from a clock pin's active edge.
#[derive(Clone, Copy, Drop)]
pub enum ArcKind {
    Comb,
    Edge,
}

impl ArcKind {
    /// Whether it is combinational.
    pub fn is_comb(self) -> bool
        ensures { result ≡ comb_kind self }
    {
        matches!(self, ArcKind::Comb)
    }
}
