//! The data types of static timing: libraries, netlists, constraints, parasitics, rows, edits,
//! reports and faults. Times are whole femtoseconds (fs), capacitances whole attofarads (aF),
//! resistances whole milliohms (mΩ).
#![tactic(auto)]

mod closing;
mod closing_copies;
mod codes;
mod constraints;
mod copies;
mod design;
mod edge_times;
mod edits;
mod faults;
mod items;
mod kinds;
mod liberty_tree;
mod library;
mod names;
mod netlist;
mod parasitics;
mod question_copies;
mod reports;
mod rows;
mod scripts;
mod texts;

pub use closing::{
    AdviceReport, Aim, ClockSummary, ClosingQuery, ClosingReport, DrivenNet, FailingEndpoints,
    InstanceReport, Junction, NetReport, PathStage, PinReport, RequiredParts, SinkReport,
    SizeAdvice, SizeChoice, SizesReport, SkewReport, SlackTotals, TestSort, TimedPath,
    TimingSummary, WireModel,
};
pub use codes::{Code, ReadFault};
pub use constraints::{
    Clock, Constraints, Derates, Effect, Exception, Object, PortDelay, PortLoad, PortSlew,
};
pub use design::Design;
pub use edge_times::{EdgeTime, EdgeTimes, LaunchEdge};
pub use edits::{Eco, Edit, Entry};
pub use faults::{Fault, Large, Many, Place, QueryFault};
pub use items::Items;
pub use kinds::{ArcKind, Dir, Kind, Split, Tran};
pub use liberty_tree::{Item, Lexeme, Tree};
pub use library::{Cell, CellArc, CellPin, CellTest, Library, Table, Units};
pub use names::{Name, is_name, same_name};
pub use netlist::{Conn, Inst, Module, Port};
pub use parasitics::{NetRc, Parasitics, RcCap, RcNode, RcRes};
pub use reports::{Advice, Candidate, EndRow, Query, Report, Trial, TrialAnswer, TrialRow};
pub use rows::{BackRow, Capture, Launch, NodeRow, Path, PathNode, PinCap, Rows};
pub use scripts::{Answer, Command, Row, Script, Totals, Transcript};
pub use texts::{Sort, Style};
