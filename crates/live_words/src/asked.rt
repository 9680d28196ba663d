//! What the words of a live run ask for.

/// The names of a session's input and output.
#[derive(Clone, Copy, Drop)]
pub struct Pair<'a> {
    pub input: &'a str,
    pub output: &'a str,
}

/// A live run: the names of the documents and of a journal, where it has one, the number of workers, from 1 to
/// 32, and the inputs and outputs of up to 16 sessions; without a pair there is one session, on the standard
/// input and output. It borrows the words.
#[derive(Drop)]
pub struct LiveWords<'a> {
    pub early: &'a str,
    pub late: &'a str,
    pub netlist: &'a str,
    pub sdc: &'a str,
    pub spef: &'a str,
    pub journal: Option<&'a str>,
    pub workers: u32,
    pub pairs: Vec<Pair<'a>>,
}
