//! Sixteen sessions that resize one gate, each between two questions, with one worker, with some and with
//! as many as can be.

use super::run;
use sta_outside::NoGate;
use std::alloc::Global;
use std::process::Abort;
use std::sync::Wait;
use std::thread::Threads;

const STRONGER: &str = "repower_gate g2 BUF_X4
take
report_endpoint r2:D setup
repower_gate g2 BUF_X4
take
report_endpoint r2:D setup
repower_gate g2 BUF_X4
take
report_endpoint r2:D setup
";

const WEAKER: &str = "repower_gate g2 BUF_X1
take
report_endpoint r2:D setup
repower_gate g2 BUF_X1
take
report_endpoint r2:D setup
repower_gate g2 BUF_X1
take
report_endpoint r2:D setup
";

const SCRIPTS: [(&str, &str); 16] = [
    ("s1", STRONGER),
    ("s2", WEAKER),
    ("s3", STRONGER),
    ("s4", WEAKER),
    ("s5", STRONGER),
    ("s6", WEAKER),
    ("s7", STRONGER),
    ("s8", WEAKER),
    ("s9", STRONGER),
    ("s10", WEAKER),
    ("s11", STRONGER),
    ("s12", WEAKER),
    ("s13", STRONGER),
    ("s14", WEAKER),
    ("s15", STRONGER),
    ("s16", WEAKER),
];

/// The commands of a session, by its ECOs.
const COMMANDS: [(u64, u64, u64); 3] = [(1, 2, 3), (4, 5, 6), (7, 8, 9)];

/// The cell that a session gives the gate, and the slack that the endpoint has with it.
fn cell_and_slack(session: u64) -> (&'static str, &'static str) {
    if session % 2 == 1 {
        ("BUF_X4", "936.500")
    } else {
        ("BUF_X1", "939.000")
    }
}

/// The first line of a text, and what stands behind it.
fn cut<'a>(rt: &impl Abort, text: &'a str) -> (&'a str, &'a str) {
    text.split_once('\n').expect(rt, "a line")
}

/// The number that stands at a word of a line.
fn number_at(rt: &impl Abort, alloc: Global, line: &str, place: usize) -> u64 {
    let words: Vec<&str> = line.split(' ').collect(alloc).expect(rt, "memory");
    let word = words.get(place).expect(rt, "a word");
    word.parse::<u64>().expect(rt, "a number")
}

/// Checks the entry of a number at the head of a text; gives its session, and what stands behind it.
fn entry<'a>(rt: &impl Abort, alloc: Global, number: u64, text: &'a str) -> (u64, &'a str) {
    let (head, text) = cut(rt, text);
    let (edit, text) = cut(rt, text);
    let session = number_at(rt, alloc, head, 3);
    let (cell, _) = cell_and_slack(session);
    let heading = format!(in alloc; "entry {number} session {session} edits 1").expect(
        rt, "memory",
    );
    let edited = format!(in alloc; "repower_gate g2 {cell}").expect(rt, "memory");
    assert_eq!(rt; head, heading.as_str());
    assert_eq!(rt; edit, edited.as_str());
    (session, text)
}

/// Checks the journal at the head of a text; gives the sessions of its entries, and what stands behind it.
fn journal<'a>(rt: &impl Abort, alloc: Global, text: &'a str) -> (Vec<u64>, &'a str) {
    let (head, mut text) = cut(rt, text);
    assert_eq!(rt; head, "journal 1 48");
    let mut sessions = Vec::new(alloc);
    for number in 1..=48 {
        let (session, behind) = entry(rt, alloc, number, text);
        sessions.push(session).expect(rt, "memory");
        text = behind;
    }
    (sessions, text)
}

/// The session of the entry of a number.
fn maker(rt: &impl Abort, sessions: &[u64], number: u64) -> u64 {
    let place = number.wrapping_sub(1) as usize;
    *sessions.get(place).expect(rt, "an entry")
}

/// Checks the three rows of an ECO at the head of a text: its entry is the session's, and the question is
/// answered by the last entry that the session has seen. Gives the entry's number, and what stands behind
/// the rows.
fn rows<'a>(
    rt: &impl Abort,
    alloc: Global,
    sessions: &[u64],
    session: u64,
    commands: (u64, u64, u64),
    text: &'a str,
) -> (u64, &'a str) {
    let (accepted, behind) = text.split_once(" accepted\n").expect(rt, "an ECO");
    let (taken, _) = behind.split_once(" taken\n").expect(rt, "a taking");
    let made = number_at(rt, alloc, accepted, 1);
    let seen = number_at(rt, alloc, taken, 1);
    assert_eq!(rt; maker(rt, sessions, made), session);
    assert!(rt; made <= seen);
    let (_, slack) = cell_and_slack(maker(rt, sessions, seen));
    let (one, two, three) = commands;
    let wanted = format!(in alloc;
        "{one} {made} accepted\n{two} {seen} taken\n{three} {seen} endpoint {slack}\n"
    ).expect(rt, "memory");
    let behind = text.strip_prefix(wanted.as_str()).expect(rt, "these rows");
    (made, behind)
}

/// Checks the rows of a session at the head of a text, whose numbers rise; gives what stands behind them.
fn transcript<'a>(
    rt: &impl Abort,
    alloc: Global,
    sessions: &[u64],
    session: u64,
    text: &'a str,
) -> &'a str {
    let (head, mut text) = cut(rt, text);
    let heading = format!(in alloc; "session {session} rows 9").expect(rt, "memory");
    assert_eq!(rt; head, heading.as_str());
    let mut last = 0;
    for &commands in &COMMANDS {
        let (made, behind) = rows(rt, alloc, sessions, session, commands, text);
        assert!(rt; last < made);
        last = made;
        text = behind;
    }
    text
}

/// Checks the rows of all sessions at the head of a text; gives what stands behind them.
fn transcripts<'a>(rt: &impl Abort, alloc: Global, sessions: &[u64], mut text: &'a str) -> &'a str {
    for session in 1..=16 {
        text = transcript(rt, alloc, sessions, session, text);
    }
    text
}

/// The runs, with one worker, with some and with as many as can be.
const RUNS: [&str; 3] = [
    "run early.lib late.lib b.v b.sdc none 1 s1 s2 s3 s4 s5 s6 s7 s8 s9 s10 s11 s12 s13 s14 s15 s16",
    "run early.lib late.lib b.v b.sdc none 4 s1 s2 s3 s4 s5 s6 s7 s8 s9 s10 s11 s12 s13 s14 s15 s16",
    "run early.lib late.lib b.v b.sdc none 32 s1 s2 s3 s4 s5 s6 s7 s8 s9 s10 s11 s12 s13 s14 s15 s16",
];

/// Runs the sixteen scripts, and checks what they write.
fn check<H: Abort + Threads + Wait + Sync>(rt: &H, alloc: Global, line: &str) {
    let (status, text) = run(rt, alloc, line, &SCRIPTS, &NoGate);
    assert_eq!(rt; status, 0);
    let (sessions, behind) = journal(rt, alloc, text.as_str());
    let last = transcripts(rt, alloc, sessions.as_slice(), behind);
    assert_eq!(rt; last, "final 48 setup 895.000 0.000 hold 28.000 0.000\n");
}

#[test]
fn sixteen_sessions_share_a_gate(rt: HostRuntime) {
    for line in &RUNS {
        check(&rt, rt.alloc(), line);
    }
}
