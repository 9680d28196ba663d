//! Faults of reading a text.

ghost use Rattle.std.specs.Prelude.{◌≡◌};
ghost use Rattle.timing_defs.specs.Codes.{code_text};

use sta_units::Memory;
use std::alloc::AllocError;
use thiserror::Error;

/// What is wrong with a text. Each variant names the code that is printed for it.
#[derive(Debug, Clone, Copy, PartialEq, Eq, Drop)]
pub enum Code {
    /// `L1`: a bracket without its partner, or an end inside a group, list, string or comment.
    LibertyUnbalanced,
    /// `L2`: a token that the grammar of Liberty does not allow.
    LibertyBadToken,
    /// `L3`: a byte that may stand only in comments and strings.
    LibertyEncoding,
    /// `L4`: a unit that is not known, or no capacitance unit.
    LibertyBadUnit,
    /// `L5`: a table names a template that is not there.
    LibertyUnknownTemplate,
    /// `L6`: a table of another form than its template.
    LibertyBadTable,
    /// `L7`: a cell, a pin of a cell or a template twice.
    LibertyDoubleName,
    /// `L8`: an index that does not rise strictly.
    LibertyIndexNotRising,
    /// `L9`: a delay model other than tables.
    LibertyOtherDelayModel,
    /// `L10`: too many cells, or too many pins of a cell.
    LibertyTooMany,
    /// `V1`: a token that the grammar of the netlist does not allow.
    VerilogBadToken,
    /// `V2`: a construct of Verilog that is left out.
    VerilogLeftOut,
    /// `V3`: a bit that no declaration has, or a port without a direction.
    VerilogUndeclared,
    /// `V4`: a port, net, instance or connected pin twice.
    VerilogDoubleName,
    /// `V5`: no module.
    VerilogNoModule,
    /// `V6`: too many nets or instances.
    VerilogTooMany,
    /// `S1`: a word that does not fit, or a missing one.
    SdcBadWord,
    /// `S2`: an unknown command.
    SdcUnknownCommand,
    /// `S3`: a command or option of SDC that is left out.
    SdcLeftOut,
    /// `S4`: no decimal in range.
    SdcBadNumber,
    /// `S5`: a clock that was not created before.
    SdcUnknownClock,
    /// `S6`: too many clocks.
    SdcTooManyClocks,
    /// `P1`: a header or token that does not fit.
    SpefBadHeader,
    /// `P2`: an index outside the name map, or a coupling row without a node of the net.
    SpefUnknownName,
    /// `P3`: a construct of SPEF that is left out.
    SpefLeftOut,
    /// `P4`: no decimal in range.
    SpefBadNumber,
    /// `P5`: a net twice.
    SpefDoubleNet,
    /// `C1`: a line that is no command.
    ScriptBadCommand,
    /// `C2`: a script, group or line that is too long.
    ScriptTooLong,
    /// `J1`: a line of another form or out of count.
    JournalBadLine,
    /// `J2`: a number word that is none or out of its range.
    JournalBadNumber,
    /// `J3`: a version of the journal that is not known.
    JournalVersion,
    /// `J5`: a block that was written under other derates.
    JournalOtherDerates,
}

impl Code {
    /// The printed code, as `L1`.
    pub fn label(&self) -> &'static str
        ensures { result.now ≡ code_text self.now }
    {
        match self {
            Code::LibertyUnbalanced => "L1",
            Code::LibertyBadToken => "L2",
            Code::LibertyEncoding => "L3",
            Code::LibertyBadUnit => "L4",
            Code::LibertyUnknownTemplate => "L5",
            Code::LibertyBadTable => "L6",
            Code::LibertyDoubleName => "L7",
            Code::LibertyIndexNotRising => "L8",
            Code::LibertyOtherDelayModel => "L9",
            Code::LibertyTooMany => "L10",
            Code::VerilogBadToken => "V1",
            Code::VerilogLeftOut => "V2",
            Code::VerilogUndeclared => "V3",
            Code::VerilogDoubleName => "V4",
            Code::VerilogNoModule => "V5",
            Code::VerilogTooMany => "V6",
            Code::SdcBadWord => "S1",
            Code::SdcUnknownCommand => "S2",
            Code::SdcLeftOut => "S3",
            Code::SdcBadNumber => "S4",
            Code::SdcUnknownClock => "S5",
            Code::SdcTooManyClocks => "S6",
            Code::SpefBadHeader => "P1",
            Code::SpefUnknownName => "P2",
            Code::SpefLeftOut => "P3",
            Code::SpefBadNumber => "P4",
            Code::SpefDoubleNet => "P5",
            Code::ScriptBadCommand => "C1",
            Code::ScriptTooLong => "C2",
            Code::JournalBadLine => "J1",
            Code::JournalBadNumber => "J2",
            Code::JournalVersion => "J3",
            Code::JournalOtherDerates => "J5",
        }
    }
}

/// Why a text was not read: a code with its place, or want of memory. The place is the offset of a
/// byte, from 0; in a script it is the number of a line, from 1.
#[derive(Debug, Clone, Copy, PartialEq, Eq, Error, Drop)]
pub enum ReadFault {
    #[error("the text is faulty at {offset}")]
    At { code: Code, offset: u64 },
    #[error("out of memory")]
    Memory,
}

impl From<Memory> for ReadFault {
    ghost use Rattle.std.specs.Prelude.{◌≡◌};
    ghost use Rattle.timing_defs.specs.declared.codes.ReadFault.TheVariants as fault;

    ghost from_gives = { λ _ told. told ≡ fault.Memory };

    fn from(_wanting: Memory) -> ReadFault {
        ReadFault::Memory
    }
}

impl From<AllocError> for ReadFault {
    ghost use Rattle.std.specs.Prelude.{◌≡◌};
    ghost use Rattle.timing_defs.specs.declared.codes.ReadFault.TheVariants as fault;

    ghost from_gives = { λ _ told. told ≡ fault.Memory };

    fn from(_refused: AllocError) -> ReadFault {
        ReadFault::Memory
    }
}
