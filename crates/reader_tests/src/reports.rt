//! Rows, journals and whole outputs in their exact bytes.

use eco_journal::read_entries;
use report_text::{
    error_bytes, final_bytes, journal_bytes, output_bytes, output_saved_bytes, report_bytes,
};
use sta_units::Fs;
use std::alloc::Global;
use std::process::Abort;
use timing_defs::{
    Advice, Answer, Clock, Code, Derates, EdgeTime, EndRow, Entry, Fault, Items, Kind, Large, Name,
    Path, PathNode, Place, Query, QueryFault, Report, Row, Split, Totals, Tran, Transcript,
    TrialAnswer, TrialRow,
};

/// Refusals with one name.
const NAMED: &str = "1 0 refused E1 u9
1 0 refused E2 n9
1 0 refused E3 NOCELL
1 0 refused E4 u1:B
1 0 refused E5 x
1 0 refused E6 g2
1 0 refused E7 r2:D
1 0 refused E8 g1:A
1 0 refused E9 g1
1 0 refused E10 z
1 0 refused E12 a1:Z
1 0 refused E13 zz
1 0 refused E14 n2
1 0 refused E15 n2
";

/// Rows of one line each, at the numbers 0, 1 and the greatest.
const ROWS: &str = "1 0 refused E11 g1:A g1:Z g2:A g2:Z
2 0 refused E16 pin u1:Z
3 0 refused E16 net n2
4 0 refused E17 pins
5 0 refused E17 insts
6 0 refused E17 nets
7 0 refused E17 net n2
8 0 refused E11 g1:Z
9 0 no Q1 nopin
10 0 no Q2 g1:A
11 0 no Q3 r2:D
12 0 not_yet 3
13 0 not_yet 0
14 0 reached
15 0 taken
16 1 accepted
17 1 at 1 clk rise 48.000
18 1 at 2 clk rise 110.000 fast fall 10.000
19 1 rat 1 clk rise 995.000
20 1 rat 0
21 1 slack 935.000
22 1 slack none
23 1 slew 75.000
24 1 endpoint -0.002
25 1 endpoint none
26 1 path none
27 1 wns none
4294967295 18446744073709551615 tns -9223372036854775.807
";

/// The row of a path with a credit.
const PATH: &str =
    "1 0 path setup r2:D slack 939.000 credit 4.000 from clk rise to clk rise nodes 10
clk rise 0.000
cb:A rise 0.000
cb:Z rise 14.000
r1:CK rise 14.000
r1:Q rise 34.000
g1:A rise 34.000
g1:Z rise 48.000
g2:A rise 48.000
g2:Z rise 60.000
r2:D rise 60.000
";

/// The worst paths of an endpoint, and none.
const RANKED: &str = "1 0 paths 2
path setup o slack 937.500 credit 0.000 from clk rise to clk rise nodes 2
clk rise 0.000
o rise 62.500
path setup o slack 940.000 credit 0.000 from clk rise to clk rise nodes 1
o rise 60.000
2 0 paths 0
";

/// The rows of trials on a draft, and of advice.
const DRAFTED: &str = "1 0 what_if 6
tried
endpoint 936.500
dropped
no Q2 g1:A
refused E3 NOCELL
no_draft
2 0 advice g2 BUF_X4 895.000
3 0 advice none
";

/// The output of a run that asks four questions.
const CONTEST: &str = "journal 1 0
session 1 rows 4
1 0 endpoint 343.800
2 0 slew 23.185
3 0 path hold y slack 40.500 credit 0.000 from clk rise to clk rise nodes 6
clk rise 0.000
r1:CK rise 0.000
r1:Q rise 30.000
u2:A rise 30.000
u2:Z rise 45.500
y rise 45.500
4 0 wns 40.500
final 0 setup 343.800 0.000 hold 40.500 0.000
";

/// The journal of one resize.
const RESIZED: &str = "journal 1 1
entry 1 session 1 edits 1
repower_gate g2 BUF_X4
";

/// The output of three sessions with two entries, the second of two edits. Nothing ends in time.
const SESSIONS: &str = "journal 1 2
entry 1 session 2 edits 1
repower_gate g2 BUF_T
entry 2 session 1 edits 2
insert_net x
set_parasitics x none
session 1 rows 1
1 2 accepted
session 2 rows 0
session 3 rows 2
1 2 worst 2
r1:D -895.000
o 937.500
2 2 worst 0
final 2 setup -895.000 -9223372036854775.807 hold none 0.000
";

/// The output behind a saved journal of one entry.
const SAVED: &str = "journal 2 1 1
derates 1000000 1000000 1000000 1000000
entry 2 session 1 edits 1
repower_gate g2 BUF_X1
session 1 rows 3
1 1 endpoint 936.500
2 2 accepted
3 2 endpoint 939.000
final 2 setup 895.000 0.000 hold 28.000 0.000
";

const UNSCALED: Derates = Derates {
    early_cell: 1_000_000,
    late_cell: 1_000_000,
    early_net: 1_000_000,
    late_net: 1_000_000,
};

/// Asserts the bytes of a text.
fn assert_text(rt: &impl Abort, found: &[u8], want: &str) {
    assert_eq!(rt; found, want.as_bytes(), "{want}");
}

fn named(rt: &impl Abort, alloc: Global, text: &str) -> Name {
    Name::from_bytes(alloc, text.as_bytes())
        .expect(rt, "memory")
        .expect(rt, "a name")
}

fn clock(rt: &impl Abort, alloc: Global, name: &str) -> Clock {
    Clock {
        name: named(rt, alloc, name),
        port: None,
        period: Fs(1_000_000),
        rise: Fs(0),
        fall: Fs(500_000),
        unc_setup: Fs(0),
        unc_hold: Fs(0),
    }
}

/// The clocks `clk` and `fast`.
fn clocks(rt: &impl Abort, alloc: Global) -> Items<Clock> {
    let mut clocks = Items::new(alloc);
    clocks.push(clock(rt, alloc, "clk")).expect(rt, "memory");
    clocks.push(clock(rt, alloc, "fast")).expect(rt, "memory");
    clocks
}

fn at(rt: &impl Abort, alloc: Global, pin: &str) -> Query {
    Query::At {
        pin: named(rt, alloc, pin),
        split: Split::Late,
        tran: Tran::Fall,
    }
}

fn rat(rt: &impl Abort, alloc: Global, pin: &str) -> Query {
    Query::Rat {
        pin: named(rt, alloc, pin),
        split: Split::Late,
        tran: Tran::Rise,
    }
}

fn slack(rt: &impl Abort, alloc: Global, pin: &str) -> Query {
    Query::Slack {
        pin: named(rt, alloc, pin),
        split: Split::Early,
        tran: Tran::Rise,
    }
}

fn slew(rt: &impl Abort, alloc: Global, pin: &str) -> Query {
    Query::Slew {
        pin: named(rt, alloc, pin),
        split: Split::Late,
        tran: Tran::Rise,
    }
}

fn endpoint(rt: &impl Abort, alloc: Global, pin: &str) -> Query {
    Query::Endpoint {
        pin: named(rt, alloc, pin),
        kind: Kind::Setup,
    }
}

fn worst_path(rt: &impl Abort, alloc: Global, pin: &str, kind: Kind) -> Query {
    Query::WorstPath {
        pin: named(rt, alloc, pin),
        kind,
    }
}

/// Rows of a session, each under the number of a version.
#[derive(Drop)]
struct Session {
    rows: Items<Row>,
}

impl Session {
    fn new(alloc: Global) -> Session {
        Session {
            rows: Items::new(alloc),
        }
    }

    fn said(&mut self, rt: &impl Abort, command: u32, number: u64, answer: Answer) {
        self.rows
            .push(Row {
                command,
                query: None,
                number,
                answer,
            })
            .expect(rt, "memory");
    }

    fn told(&mut self, rt: &impl Abort, command: u32, number: u64, query: Query, report: Report) {
        self.rows
            .push(Row {
                command,
                query: Some(query),
                number,
                answer: Answer::Told(report),
            })
            .expect(rt, "memory");
    }

    fn value(&mut self, rt: &impl Abort, command: u32, number: u64, query: Query, fs: i64) {
        self.told(rt, command, number, query, Report::Value(Some(Fs(fs))));
    }

    fn no_value(&mut self, rt: &impl Abort, command: u32, number: u64, query: Query) {
        self.told(rt, command, number, query, Report::Value(None))
    }
}

/// The bytes of rows, one after another.
fn rows_bytes(rt: &impl Abort, alloc: Global, rows: &Items<Row>) -> Vec<u8> {
    let clocks = clocks(rt, alloc);
    let mut out = Vec::new(alloc);
    for row in rows.as_slice() {
        let bytes = report_bytes(alloc, row, &clocks).expect(rt, "memory");
        out.extend_from_slice(bytes.as_slice()).expect(rt, "memory");
    }
    drop(clocks);
    out
}

/// Asserts the bytes of a session's rows.
fn assert_rows(rt: &impl Abort, alloc: Global, session: Session, want: &str) {
    let bytes = rows_bytes(rt, alloc, &session.rows);
    assert_text(rt, bytes.as_slice(), want);
    drop(session);
}

/// The refusal of a code from E1 to E15 with one name.
fn refused(code: u32, name: Name) -> Answer {
    Answer::Refused(match code {
        1 => Fault::UnknownInstance(name),
        2 => Fault::UnknownNet(name),
        3 => Fault::UnknownCell(name),
        4 => Fault::UnknownPin(name),
        5 => Fault::NameTaken(name),
        6 => Fault::PinsDiffer(name),
        7 => Fault::AlreadyConnected(name),
        8 => Fault::NotConnected(name),
        9 => Fault::InUse(name),
        10 => Fault::ManyDrivers(name),
        12 => Fault::ClockNotTree(name),
        13 => Fault::ConstraintDangling(name),
        14 => Fault::RcNotTree(name),
        _ => Fault::RcPinsDiffer(name),
    })
}

#[test]
fn refusals_have_a_code_and_a_name(rt: HostRuntime) {
    let alloc = rt.alloc();
    let mut session = Session::new(alloc);
    for line in NAMED.lines() {
        let (_, fault) = line.split_once('E').expect(&rt, "a code");
        let (code, name) = fault.split_once(' ').expect(&rt, "a name");
        let answer = refused(
            code.parse::<u32>().expect(&rt, "a number"),
            named(&rt, alloc, name),
        );
        session.said(&rt, 1, 0, answer);
    }
    assert_rows(&rt, alloc, session, NAMED);
}

/// The pins of a cycle.
fn cycle(rt: &impl Abort, alloc: Global) -> Items<Name> {
    let mut names = Items::new(alloc);
    for name in ["g1:A", "g1:Z", "g2:A", "g2:Z"] {
        names.push(named(rt, alloc, name)).expect(rt, "memory");
    }
    names
}

/// The refusals without a name, or with several.
fn push_refusals(rt: &impl Abort, alloc: Global, session: &mut Session) {
    session.said(rt, 1, 0, Answer::Refused(Fault::Loop(cycle(rt, alloc))));
    let pin = Place::Pin(named(rt, alloc, "u1:Z"));
    session.said(rt, 2, 0, Answer::Refused(Fault::OutOfRange(pin)));
    let net = Place::Net(named(rt, alloc, "n2"));
    session.said(rt, 3, 0, Answer::Refused(Fault::OutOfRange(net)));
    session.said(rt, 4, 0, Answer::Refused(Fault::TooLarge(Large::Pins)));
    session.said(rt, 5, 0, Answer::Refused(Fault::TooLarge(Large::Insts)));
    session.said(rt, 6, 0, Answer::Refused(Fault::TooLarge(Large::Nets)));
    let large = Large::Net(named(rt, alloc, "n2"));
    session.said(rt, 7, 0, Answer::Refused(Fault::TooLarge(large)));
    let mut own = Items::new(alloc);
    own.push(named(rt, alloc, "g1:Z")).expect(rt, "memory");
    session.said(rt, 8, 0, Answer::Refused(Fault::Loop(own)));
}

/// The answers without a report.
fn push_answers(rt: &impl Abort, alloc: Global, session: &mut Session) {
    let pin = named(rt, alloc, "nopin");
    session.said(rt, 9, 0, Answer::No(QueryFault::UnknownPin(pin)));
    let gate = named(rt, alloc, "g1:A");
    session.said(rt, 10, 0, Answer::No(QueryFault::NotEndpoint(gate)));
    let data = named(rt, alloc, "r2:D");
    session.said(rt, 11, 0, Answer::No(QueryFault::NotClocked(data)));
    let looks = Items::from_slice(alloc, &[0, 7, 7]).expect(rt, "memory");
    session.said(rt, 12, 0, Answer::NotYet(looks));
    session.said(rt, 13, 0, Answer::NotYet(Items::new(alloc)));
    session.said(rt, 14, 0, Answer::Reached);
    session.said(rt, 15, 0, Answer::Taken);
    session.said(rt, 16, 1, Answer::Accepted);
}

fn edge(clock: u32, tran: Tran, fs: i64) -> EdgeTime {
    EdgeTime {
        clock,
        tran,
        time: Fs(fs),
    }
}

fn times(rt: &impl Abort, alloc: Global, times: &[EdgeTime]) -> Report {
    Report::Times(Items::from_slice(alloc, times).expect(rt, "memory"))
}

/// The reports of times per launch edge.
fn push_times(rt: &impl Abort, alloc: Global, session: &mut Session) {
    let one = times(rt, alloc, &[edge(0, Tran::Rise, 48_000)]);
    session.told(rt, 17, 1, at(rt, alloc, "g1:Z"), one);
    let two = times(
        rt,
        alloc,
        &[edge(0, Tran::Rise, 110_000), edge(1, Tran::Fall, 10_000)],
    );
    session.told(rt, 18, 1, at(rt, alloc, "a1:Z"), two);
    let wanted = times(rt, alloc, &[edge(0, Tran::Rise, 995_000)]);
    session.told(rt, 19, 1, rat(rt, alloc, "r2:D"), wanted);
    session.told(rt, 20, 1, rat(rt, alloc, "q"), times(rt, alloc, &[]));
}

/// The reports of one time, the last the least one that a total can have.
fn push_values(rt: &impl Abort, alloc: Global, session: &mut Session) {
    session.value(rt, 21, 1, slack(rt, alloc, "r2:D"), 935_000);
    session.no_value(rt, 22, 1, slack(rt, alloc, "a1:Z"));
    session.value(rt, 23, 1, slew(rt, alloc, "g3:A"), 75_000);
    session.value(rt, 24, 1, endpoint(rt, alloc, "o"), -2);
    session.no_value(rt, 25, 1, endpoint(rt, alloc, "r3:D"));
    let path = worst_path(rt, alloc, "o", Kind::Hold);
    session.told(rt, 26, 1, path, Report::Shown(None));
    session.no_value(rt, 27, 1, Query::Wns { kind: Kind::Hold });
    let tns = Query::Tns { kind: Kind::Setup };
    session.value(rt, u32::MAX, u64::MAX, tns, -i64::MAX);
}

#[test]
fn rows_have_their_words(rt: HostRuntime) {
    let alloc = rt.alloc();
    let mut session = Session::new(alloc);
    push_refusals(&rt, alloc, &mut session);
    push_answers(&rt, alloc, &mut session);
    push_times(&rt, alloc, &mut session);
    push_values(&rt, alloc, &mut session);
    assert_rows(&rt, alloc, session, ROWS);
}

/// A path from a rise of the first clock to its next.
fn path(rt: &impl Abort, alloc: Global, slack: i64, credit: i64, pins: &[(&str, i64)]) -> Path {
    let mut nodes = Items::new(alloc);
    for (pin, fs) in pins {
        nodes
            .push(PathNode {
                pin: named(rt, alloc, pin),
                tran: Tran::Rise,
                time: Fs(*fs),
            })
            .expect(rt, "memory");
    }
    Path {
        nodes,
        slack: Fs(slack),
        credit: Fs(credit),
        launch_clock: 0,
        launch_tran: Tran::Rise,
        capture_clock: 0,
        capture_tran: Tran::Rise,
    }
}

fn credited(rt: &impl Abort, alloc: Global) -> Path {
    let pins = [
        ("clk", 0),
        ("cb:A", 0),
        ("cb:Z", 14_000),
        ("r1:CK", 14_000),
        ("r1:Q", 34_000),
        ("g1:A", 34_000),
        ("g1:Z", 48_000),
        ("g2:A", 48_000),
        ("g2:Z", 60_000),
        ("r2:D", 60_000),
    ];
    path(rt, alloc, 939_000, 4_000, &pins)
}

#[test]
fn a_path_has_a_line_for_each_node(rt: HostRuntime) {
    let alloc = rt.alloc();
    let mut session = Session::new(alloc);
    let query = worst_path(&rt, alloc, "r2:D", Kind::Setup);
    session.told(&rt, 1, 0, query, Report::Shown(Some(credited(&rt, alloc))));
    assert_rows(&rt, alloc, session, PATH);
}

fn ranked(rt: &impl Abort, alloc: Global) -> Query {
    Query::Paths {
        pin: named(rt, alloc, "o"),
        kind: Kind::Setup,
        count: 3,
    }
}

fn two_paths(rt: &impl Abort, alloc: Global) -> Items<Path> {
    let mut paths = Items::new(alloc);
    let worst = path(rt, alloc, 937_500, 0, &[("clk", 0), ("o", 62_500)]);
    paths.push(worst).expect(rt, "memory");
    let next = path(rt, alloc, 940_000, 0, &[("o", 60_000)]);
    paths.push(next).expect(rt, "memory");
    paths
}

/// Ranked paths are written one after another, each as the worst path is.
#[test]
fn ranked_paths_have_a_block_each(rt: HostRuntime) {
    let alloc = rt.alloc();
    let mut session = Session::new(alloc);
    let paths = two_paths(&rt, alloc);
    session.told(&rt, 1, 0, ranked(&rt, alloc), Report::Paths(paths));
    let none = Report::Paths(Items::new(alloc));
    session.told(&rt, 2, 0, ranked(&rt, alloc), none);
    assert_rows(&rt, alloc, session, RANKED);
}

fn add_trial(
    rt: &impl Abort,
    rows: &mut Items<TrialRow>,
    query: Option<Query>,
    answer: TrialAnswer,
) {
    rows.push(TrialRow { query, answer }).expect(rt, "memory");
}

/// Trials that are accepted, asked, dropped and refused.
fn trials(rt: &impl Abort, alloc: Global) -> Items<TrialRow> {
    let mut rows = Items::new(alloc);
    add_trial(rt, &mut rows, None, TrialAnswer::Tried);
    let slack = TrialAnswer::Told(Report::Value(Some(Fs(936_500))));
    add_trial(rt, &mut rows, Some(endpoint(rt, alloc, "r2:D")), slack);
    add_trial(rt, &mut rows, None, TrialAnswer::Dropped);
    let inner = TrialAnswer::No(QueryFault::NotEndpoint(named(rt, alloc, "g1:A")));
    add_trial(rt, &mut rows, Some(endpoint(rt, alloc, "g1:A")), inner);
    let cell = Fault::UnknownCell(named(rt, alloc, "NOCELL"));
    add_trial(rt, &mut rows, None, TrialAnswer::Refused(cell));
    add_trial(rt, &mut rows, None, TrialAnswer::NoDraft);
    rows
}

fn advise(alloc: Global) -> Query {
    Query::Advise {
        kind: Kind::Setup,
        candidates: Items::new(alloc),
    }
}

#[test]
fn trials_and_advice_have_their_words(rt: HostRuntime) {
    let alloc = rt.alloc();
    let mut session = Session::new(alloc);
    let query = Query::WhatIf {
        items: Items::new(alloc),
    };
    session.told(&rt, 1, 0, query, Report::Drafted(trials(&rt, alloc)));
    let advice = Advice {
        inst: named(&rt, alloc, "g2"),
        cell: named(&rt, alloc, "BUF_X4"),
        wns: Fs(895_000),
    };
    session.told(&rt, 2, 0, advise(alloc), Report::Advised(Some(advice)));
    session.told(&rt, 3, 0, advise(alloc), Report::Advised(None));
    assert_rows(&rt, alloc, session, DRAFTED);
}

fn contest(rt: &impl Abort, alloc: Global) -> Session {
    let mut session = Session::new(alloc);
    session.value(rt, 1, 0, endpoint(rt, alloc, "r1:D"), 343_800);
    session.value(rt, 2, 0, slew(rt, alloc, "r1:D"), 23_185);
    let pins = [
        ("clk", 0),
        ("r1:CK", 0),
        ("r1:Q", 30_000),
        ("u2:A", 30_000),
        ("u2:Z", 45_500),
        ("y", 45_500),
    ];
    let shown = path(rt, alloc, 40_500, 0, &pins);
    let query = worst_path(rt, alloc, "y", Kind::Hold);
    session.told(rt, 3, 0, query, Report::Shown(Some(shown)));
    session.value(rt, 4, 0, Query::Wns { kind: Kind::Hold }, 40_500);
    session
}

/// The transcripts of one session.
fn alone(rt: &impl Abort, alloc: Global, session: Session) -> Items<Transcript> {
    let Session { rows } = session;
    let mut transcripts = Items::new(alloc);
    transcripts.push(Transcript { rows }).expect(rt, "memory");
    transcripts
}

/// Asserts the bytes of a run's output.
fn assert_output(
    rt: &impl Abort,
    alloc: Global,
    entries: Items<Entry>,
    transcripts: Items<Transcript>,
    totals: &Totals,
    want: &str,
) {
    let clocks = clocks(rt, alloc);
    let bytes = output_bytes(alloc, &entries, &transcripts, &clocks, totals).expect(rt, "memory");
    assert_text(rt, bytes.as_slice(), want);
    drop(entries);
    drop(transcripts);
    drop(clocks);
}

#[test]
fn an_output_has_its_rows_and_totals(rt: HostRuntime) {
    let alloc = rt.alloc();
    let transcripts = alone(&rt, alloc, contest(&rt, alloc));
    let totals = Totals {
        number: 0,
        setup_wns: Some(Fs(343_800)),
        setup_tns: Fs(0),
        hold_wns: Some(Fs(40_500)),
        hold_tns: Fs(0),
    };
    assert_output(&rt, alloc, Items::new(alloc), transcripts, &totals, CONTEST);
}

#[test]
fn a_journal_is_read_and_written(rt: HostRuntime) {
    let alloc = rt.alloc();
    let entries = read_entries(alloc, RESIZED.as_bytes()).expect(&rt, "entries");
    let bytes = journal_bytes(alloc, &entries).expect(&rt, "memory");
    assert_text(&rt, bytes.as_slice(), RESIZED);
    drop(entries);
}

/// Endpoints by their least slack.
fn ends(rt: &impl Abort, alloc: Global, ends: &[(&str, i64)]) -> Report {
    let mut rows = Items::new(alloc);
    for (pin, fs) in ends {
        rows.push(EndRow {
            pin: named(rt, alloc, pin),
            slack: Fs(*fs),
        })
        .expect(rt, "memory");
    }
    Report::Ends(rows)
}

fn worst(count: u32) -> Query {
    Query::Worst {
        kind: Kind::Setup,
        count,
    }
}

/// One session that changed the design, one without commands, and one that asks twice.
fn three_sessions(rt: &impl Abort, alloc: Global) -> Items<Transcript> {
    let mut first = Session::new(alloc);
    first.said(rt, 1, 2, Answer::Accepted);
    let mut transcripts = alone(rt, alloc, first);
    transcripts
        .push(Transcript {
            rows: Items::new(alloc),
        })
        .expect(rt, "memory");
    let mut third = Session::new(alloc);
    let found = ends(rt, alloc, &[("r1:D", -895_000), ("o", 937_500)]);
    third.told(rt, 1, 2, worst(2), found);
    third.told(rt, 2, 2, worst(9), ends(rt, alloc, &[]));
    let Session { rows } = third;
    transcripts.push(Transcript { rows }).expect(rt, "memory");
    transcripts
}

#[test]
fn sessions_are_numbered(rt: HostRuntime) {
    let alloc = rt.alloc();
    let (journal, _) = SESSIONS.split_once("session 1 rows").expect(&rt, "rows");
    let entries = read_entries(alloc, journal.as_bytes()).expect(&rt, "entries");
    let transcripts = three_sessions(&rt, alloc);
    let totals = Totals {
        number: 2,
        setup_wns: Some(Fs(-895_000)),
        setup_tns: Fs(-i64::MAX),
        hold_wns: None,
        hold_tns: Fs(0),
    };
    assert_output(&rt, alloc, entries, transcripts, &totals, SESSIONS);
}

/// A resize behind a saved one.
const AGAIN: &str = "journal 1 1
entry 1 session 1 edits 1
repower_gate g2 BUF_X1
";

fn resized_again(rt: &impl Abort, alloc: Global) -> Session {
    let mut session = Session::new(alloc);
    session.value(rt, 1, 1, endpoint(rt, alloc, "r2:D"), 936_500);
    session.said(rt, 2, 2, Answer::Accepted);
    session.value(rt, 3, 2, endpoint(rt, alloc, "r2:D"), 939_000);
    session
}

#[test]
fn an_output_goes_on_from_a_saved_journal(rt: HostRuntime) {
    let alloc = rt.alloc();
    let entries = read_entries(alloc, AGAIN.as_bytes()).expect(&rt, "entries");
    let transcripts = alone(&rt, alloc, resized_again(&rt, alloc));
    let clocks = clocks(&rt, alloc);
    let totals = Totals {
        number: 2,
        setup_wns: Some(Fs(895_000)),
        setup_tns: Fs(0),
        hold_wns: Some(Fs(28_000)),
        hold_tns: Fs(0),
    };
    let bytes = output_saved_bytes(
        alloc,
        1,
        &UNSCALED,
        &entries,
        &transcripts,
        &clocks,
        &totals,
    )
    .expect(&rt, "memory");
    assert_text(&rt, bytes.as_slice(), SAVED);
    drop(entries);
    drop(transcripts);
    drop(clocks);
}

/// The totals of a run whose rows were told one by one, and two wrong lines of its input.
const TOLD_APART: &str = "error C1 7
error C2 18446744073709551615
final 2 setup -895.000 -9223372036854775.807 hold none 0.000
";

#[test]
fn wrong_lines_and_totals_have_a_line_each(rt: HostRuntime) {
    let alloc = rt.alloc();
    let totals = Totals {
        number: 2,
        setup_wns: Some(Fs(-895_000)),
        setup_tns: Fs(-i64::MAX),
        hold_wns: None,
        hold_tns: Fs(0),
    };
    let mut told = error_bytes(alloc, Code::ScriptBadCommand, 7).expect(&rt, "memory");
    let long = error_bytes(alloc, Code::ScriptTooLong, u64::MAX).expect(&rt, "memory");
    let last = final_bytes(alloc, &totals).expect(&rt, "memory");
    told.extend_from_slice(long.as_slice())
        .expect(&rt, "memory");
    told.extend_from_slice(last.as_slice())
        .expect(&rt, "memory");
    assert_text(&rt, told.as_slice(), TOLD_APART);
}
