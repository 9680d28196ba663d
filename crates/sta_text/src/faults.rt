//! The fault of a text: of all its faults the least.

ghost use Rattle.std.specs.Prelude.{◌≡◌, Some};
ghost use Rattle.sta_text.specs.Faults.{rank, is_before, lesser, told_fault};

use timing_defs::{Code, ReadFault};

/// A fault of a text, with the offset of the byte where it stands.
#[derive(Clone, Copy, Drop)]
pub struct Wrong {
    pub code: Code,
    pub at: usize,
}

/// The number of a code among those of its reader, as it is printed.
fn rank(code: Code) -> u8
    ensures { result ≡ rank code }
{
    match code {
        Code::LibertyUnbalanced
        | Code::VerilogBadToken
        | Code::SdcBadWord
        | Code::SpefBadHeader
        | Code::ScriptBadCommand
        | Code::JournalBadLine => 1,
        Code::LibertyBadToken
        | Code::VerilogLeftOut
        | Code::SdcUnknownCommand
        | Code::SpefUnknownName
        | Code::ScriptTooLong
        | Code::JournalBadNumber => 2,
        Code::LibertyEncoding
        | Code::VerilogUndeclared
        | Code::SdcLeftOut
        | Code::SpefLeftOut
        | Code::JournalVersion => 3,
        Code::LibertyBadUnit | Code::VerilogDoubleName | Code::SdcBadNumber | Code::SpefBadNumber =>
            4,
        Code::LibertyUnknownTemplate
        | Code::VerilogNoModule
        | Code::SdcUnknownClock
        | Code::SpefDoubleNet
        | Code::JournalOtherDerates => 5,
        Code::LibertyBadTable | Code::VerilogTooMany | Code::SdcTooManyClocks => 6,
        Code::LibertyDoubleName => 7,
        Code::LibertyIndexNotRising => 8,
        Code::LibertyOtherDelayModel => 9,
        Code::LibertyTooMany => 10,
    }
}

impl Wrong {
    /// Whether this fault stands at a lower place than the other, or at the same place with a lower
    /// code.
    pub fn is_before(&self, other: &Wrong) -> bool
        ensures { result ≡ is_before self.now other.now }
    {
        self.at < other.at || (self.at == other.at && rank(self.code) < rank(other.code))
    }

    /// The fault as a reader tells it.
    pub fn told(self) -> ReadFault
        ensures { result ≡ told_fault self }
    {
        ReadFault::At {
            code: self.code,
            offset: self.at as u64,
        }
    }
}

/// The lesser of two faults, the first of equal ones.
pub fn lesser(best: Option<Wrong>, next: Wrong) -> Option<Wrong>
    ensures { result ≡ lesser best next }
{
    match best {
        None => Some(next),
        Some(known) => {
            if next.is_before(&known) {
                Some(next)
            } else {
                Some(known)
            }
        }
    }
}
