//! What words ask for.

/// A run: the names of the documents, with those of 1 to 16 scripts, one for each session, and of a
/// saved journal where the run goes on from one, and the number of workers, from 1 to 32. It borrows the
/// words.
#[derive(Drop)]
pub struct Run<'a> {
    pub early: &'a str,
    pub late: &'a str,
    pub netlist: &'a str,
    pub sdc: &'a str,
    pub spef: &'a str,
    pub journal: Option<&'a str>,
    pub workers: u32,
    pub scripts: Vec<&'a str>,
}

/// A generated run: the number that its draws start from, and how many gates and edits it has.
#[derive(Clone, Copy, Drop)]
pub struct Generate {
    pub number: u64,
    pub gates: u32,
    pub edits: u32,
}

/// A command.
#[derive(Drop)]
pub enum Asked<'a> {
    Run(Run<'a>),
    Generate(Generate),
}
