//! Scripts: how many commands there are, and each of them on a line of its own, in the words of scripts. Before
//! edits that are made together, and before trials, there is a line with their count.

use crate::parasitics::show_net;
use crate::texts::Text;
use script_reader::read_script;
use std::alloc::Global;
use timing_defs::{
    Aim, Candidate, ClosingQuery, Command, Eco, Edit, Items, Kind, Name, Query, Script, Split,
    Tran, Trial,
};

fn show_two(mark: &[u8], one: &Name, other: &Name, out: &mut Text) {
    out.name(mark, one);
    out.name(b" ", other);
}

fn show_buffer(net: &Name, inst: &Name, fresh: &Name, cell: &Name, out: &mut Text) {
    show_two(b"insert_buffer ", net, inst, out);
    show_two(b" ", fresh, cell, out);
}

fn show_edit(edit: &Edit, out: &mut Text) {
    match edit {
        Edit::Repower { inst, cell } => show_two(b"repower_gate ", inst, cell, out),
        Edit::InsertGate { inst, cell } => show_two(b"insert_gate ", inst, cell, out),
        Edit::RemoveGate { inst } => out.name(b"remove_gate ", inst),
        Edit::InsertNet { net } => out.name(b"insert_net ", net),
        Edit::RemoveNet { net } => out.name(b"remove_net ", net),
        Edit::Connect { pin, net } => show_two(b"connect_pin ", pin, net, out),
        Edit::Disconnect { pin } => out.name(b"disconnect_pin ", pin),
        Edit::InsertBuffer {
            net,
            inst,
            fresh,
            cell,
            sinks,
        } => {
            show_buffer(net, inst, fresh, cell, out);
            out.names(sinks.as_slice());
        }
        Edit::SetParasitics { net, rc: None } => out.name(b"set_parasitics none ", net),
        Edit::SetParasitics { net, rc: Some(rc) } => {
            out.name(b"set_parasitics ", net);
            out.add(b" ");
            show_net(rc, out);
        }
    }
    out.end();
}

fn show_edits(eco: &Eco, out: &mut Text) {
    out.count(b"edits ", eco.edits.len() as u64);
    out.end();
    for edit in eco.edits.as_slice() {
        show_edit(edit, out);
    }
}

fn show_node(mark: &[u8], pin: &Name, split: Split, tran: Tran, out: &mut Text) {
    out.name(mark, pin);
    out.split(split);
    out.tran(tran);
}

fn show_end(mark: &[u8], pin: &Name, kind: Kind, out: &mut Text) {
    out.name(mark, pin);
    out.kind(b" ", kind);
}

fn show_candidate(candidate: &Candidate, out: &mut Text) {
    show_two(b" ", &candidate.inst, &candidate.cell, out);
}

fn show_advise(mark: &[u8], kind: Kind, candidates: &Items<Candidate>, out: &mut Text) {
    out.kind(mark, kind);
    for candidate in candidates.as_slice() {
        show_candidate(candidate, out);
    }
}

/// Writes the words of a question about a node; tells whether it is one.
fn show_node_question(query: &Query, out: &mut Text) -> bool {
    match query {
        Query::Slew { pin, split, tran } => show_node(b"report_slew ", pin, *split, *tran, out),
        Query::At { pin, split, tran } => show_node(b"report_at ", pin, *split, *tran, out),
        Query::Rat { pin, split, tran } => show_node(b"report_rat ", pin, *split, *tran, out),
        Query::Slack { pin, split, tran } => show_node(b"report_slack ", pin, *split, *tran, out),
        _ => return false,
    }
    true
}

fn show_worst_paths(kind: Kind, count: u32, each: u32, out: &mut Text) {
    out.kind(b"report_worst_paths ", kind);
    out.count(b" ", u64::from(count));
    out.count(b" each ", u64::from(each));
}

fn show_sizes_wanted(kind: Kind, aim: Aim, insts: &Items<Name>, out: &mut Text) {
    out.kind(b"advise_sizes ", kind);
    match aim {
        Aim::Wns => out.add(b" wns"),
        Aim::Tns => out.add(b" tns"),
    }
    out.names(insts.as_slice());
}

/// Writes the words of a question that closing timing needs.
fn show_closing(query: &ClosingQuery, out: &mut Text) {
    match query {
        ClosingQuery::Net { net } => out.name(b"report_net ", net),
        ClosingQuery::Instance { inst } => out.name(b"report_instance ", inst),
        ClosingQuery::Sizes { inst } => out.name(b"report_sizes ", inst),
        ClosingQuery::Timing { pin, kind } => show_end(b"report_timing ", pin, *kind, out),
        ClosingQuery::TimingThrough { pin, kind, pins } => {
            show_end(b"report_timing_through ", pin, *kind, out);
            out.names(pins.as_slice());
        }
        ClosingQuery::WorstPaths { kind, count, each } => {
            show_worst_paths(*kind, *count, *each, out);
        }
        ClosingQuery::Failing { kind } => out.kind(b"report_failing ", *kind),
        ClosingQuery::Summary { kind } => out.kind(b"report_summary ", *kind),
        ClosingQuery::Skew => out.add(b"report_skew"),
        ClosingQuery::AdviseTns { kind, candidates } => {
            show_advise(b"advise_tns ", *kind, candidates, out);
        }
        ClosingQuery::AdviseSizes { kind, aim, insts } => show_sizes_wanted(
            *kind, *aim, insts, out,
        ),
    }
}

/// Writes the words of a question, but those of trials.
fn show_question(query: &Query, out: &mut Text) {
    match query {
        Query::Endpoint { pin, kind } => show_end(b"report_endpoint ", pin, *kind, out),
        Query::WorstPath { pin, kind } => show_end(b"report_path ", pin, *kind, out),
        Query::Wns { kind } => out.kind(b"report_wns ", *kind),
        Query::Tns { kind } => out.kind(b"report_tns ", *kind),
        Query::Worst { kind, count } => {
            out.kind(b"report_worst ", *kind);
            out.count(b" ", u64::from(*count));
        }
        Query::Through { pin, kind, pins } => {
            show_end(b"report_through ", pin, *kind, out);
            out.names(pins.as_slice());
        }
        Query::Paths { pin, kind, count } => {
            show_end(b"report_paths ", pin, *kind, out);
            out.count(b" ", u64::from(*count));
        }
        Query::WhatIf { items } => out.count(b"trials ", items.len() as u64),
        Query::Advise { kind, candidates } => show_advise(b"advise ", *kind, candidates, out),
        Query::Closing { query } => show_closing(query, out),
        _ => {
            show_node_question(query, out);
        }
    }
    out.end();
}

fn show_trial(trial: &Trial, out: &mut Text) {
    match trial {
        Trial::Try(eco) => show_edits(eco, out),
        Trial::Drop => out.add(b"drop_last\n"),
        Trial::Ask(query) => show_question(query, out),
    }
}

fn show_trials(query: &Query, out: &mut Text) {
    if let Query::WhatIf { items } = query {
        for trial in items.as_slice() {
            show_trial(trial, out);
        }
    }
}

/// Writes a command.
pub(crate) fn show_command(command: &Command, out: &mut Text) {
    match command {
        Command::Take => out.add(b"take\n"),
        Command::Await { number, looks } => {
            out.count(b"await ", *number);
            out.count(b" ", u64::from(*looks));
            out.end();
        }
        Command::Ask(query) => {
            show_question(query, out);
            show_trials(query, out);
        }
        Command::Change(eco) => show_edits(eco, out),
    }
}

fn show_count(script: &Script, out: &mut Text) {
    out.count(b"commands ", script.commands.len() as u64);
    out.end();
}

fn show_script(script: &Script, out: &mut Text) {
    show_count(script, out);
    for command in script.commands.as_slice() {
        show_command(command, out);
    }
}

/// Writes the commands.
pub(crate) fn answer_script(alloc: Global, document: &[u8], out: &mut Text) {
    match read_script(alloc, document) {
        Ok(script) => {
            show_script(&script, out);
            drop(script);
        }
        Err(fault) => out.fault(fault),
    }
}

/// Writes how many commands there are.
pub(crate) fn count_commands(alloc: Global, document: &[u8], out: &mut Text) {
    match read_script(alloc, document) {
        Ok(script) => {
            show_count(&script, out);
            drop(script);
        }
        Err(fault) => out.fault(fault),
    }
}
