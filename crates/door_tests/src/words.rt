//! Which words of a live run are taken, and what they mean.

use live_words::{LiveWords, read_live_words};
use std::alloc::Global;
use std::process::Abort;

/// Adds a copy of a word.
fn push_word(rt: &impl Abort, alloc: Global, words: &mut Vec<String>, word: &str) {
    let word = String::from_str(alloc, word).expect(rt, "memory");
    words.push(word).expect(rt, "memory");
}

fn words_of(rt: &impl Abort, alloc: Global, line: &str) -> Vec<String> {
    let mut words = Vec::new(alloc);
    for word in line.split(' ') {
        push_word(rt, alloc, &mut words, word);
    }
    words
}

/// Whether the words of a line are taken.
fn is_taken(rt: &impl Abort, alloc: Global, line: &str) -> bool {
    let words = words_of(rt, alloc, line);
    let live = read_live_words(alloc, words.as_slice()).expect(rt, "memory");
    let taken = live.is_some();
    drop(live);
    drop(words);
    taken
}

/// Asserts that the words of a line are taken.
fn assert_taken(rt: &impl Abort, alloc: Global, line: &str) {
    assert!(rt; is_taken(rt, alloc, line), "{line}");
}

/// Asserts that the words of a line are refused.
fn assert_refused(rt: &impl Abort, alloc: Global, line: &str) {
    assert!(rt; !is_taken(rt, alloc, line), "{line}");
}

#[test]
fn words_of_a_live_run_are_taken_or_refused(rt: HostRuntime) {
    let alloc = rt.alloc();
    assert_taken(&rt, alloc, "live e l v c none 1");
    assert_taken(&rt, alloc, "live e l v c s 32 i o");
    assert_taken(&rt, alloc, "live e l v c s 4 i o i o --journal j");
    assert_refused(&rt, alloc, "live e l v c s 4 i");
    assert_refused(&rt, alloc, "live e l v c s 4 i o i");
    assert_refused(&rt, alloc, "live e l v c s 0");
    assert_refused(&rt, alloc, "live e l v c s 33");
    assert_refused(&rt, alloc, "live e l v c s");
    assert_refused(&rt, alloc, "live --journal j e l v c s");
    assert_refused(&rt, alloc, "live e l v c s 4 --journal");
    assert_refused(&rt, alloc, "live e l v c s 4 -x o");
    assert_refused(&rt, alloc, "live --help");
    assert_refused(&rt, alloc, "run e l v c s 4 a");
    assert_refused(&rt, alloc, "e l v c s 4");
}

#[test]
fn at_most_16_pairs_are_taken(rt: HostRuntime) {
    let alloc = rt.alloc();
    let sixteen =
        "live e l v c s 4 i o i o i o i o i o i o i o i o i o i o i o i o i o i o i o i o";
    let seventeen =
        "live e l v c s 4 i o i o i o i o i o i o i o i o i o i o i o i o i o i o i o i o i o";
    assert_taken(&rt, alloc, sixteen);
    assert_refused(&rt, alloc, seventeen);
}

/// Asserts a word.
fn assert_word(rt: &impl Abort, word: &str, wanted: &str) {
    assert_eq!(rt; word, wanted);
}

/// Asserts that the places of a live run have their words.
fn assert_places(rt: &impl Abort, live: &LiveWords<'_>) {
    assert_word(rt, live.early, "early.lib");
    assert_word(rt, live.late, "late.lib");
    assert_word(rt, live.netlist, "top.v");
    assert_word(rt, live.sdc, "top.sdc");
    assert_word(rt, live.spef, "none");
    assert_eq!(rt; live.workers, 8);
}

/// Asserts the journal of a live run, and how many pairs it has.
fn assert_rest(rt: &impl Abort, live: &LiveWords<'_>, journal: Option<&str>, pairs: usize) {
    assert_eq!(rt; live.journal, journal);
    assert_eq!(rt; live.pairs.len(), pairs);
}

/// Asserts the words of a pair, from 0.
fn assert_pair(rt: &impl Abort, live: &LiveWords<'_>, at: usize, input: &str, output: &str) {
    match live.pairs.get(at) {
        Some(pair) => {
            assert_word(rt, pair.input, input);
            assert_word(rt, pair.output, output);
        }
        None => assert!(rt; false),
    }
}

#[test]
fn words_of_a_live_run_have_their_places(rt: HostRuntime) {
    let alloc = rt.alloc();
    let line =
        "live --journal top.journal early.lib late.lib top.v top.sdc none 8 in1 out1 in2 out2";
    let words = words_of(&rt, alloc, line);
    let live = read_live_words(alloc, words.as_slice())
        .expect(&rt, "memory")
        .expect(&rt, "a live run");
    assert_places(&rt, &live);
    assert_rest(&rt, &live, Some("top.journal"), 2);
    assert_pair(&rt, &live, 0, "in1", "out1");
    assert_pair(&rt, &live, 1, "in2", "out2");
    drop(live);
    drop(words);
}

#[test]
fn a_live_run_needs_no_journal_and_no_pair(rt: HostRuntime) {
    let alloc = rt.alloc();
    let words = words_of(&rt, alloc, "live early.lib late.lib top.v top.sdc none 8");
    let live = read_live_words(alloc, words.as_slice())
        .expect(&rt, "memory")
        .expect(&rt, "a live run");
    assert_places(&rt, &live);
    assert_rest(&rt, &live, None, 0);
    drop(live);
    drop(words);
}
