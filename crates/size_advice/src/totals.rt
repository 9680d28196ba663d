//! The totals of an analysis.

ghost use Rattle.timing_rules.specs.SizeAdvice.{AreSlackTotals};

use affected_cone::Analysis;
use timing_defs::SlackTotals;

/// Worst slack and total negative slack of both kinds over the endpoints of an analysis.
pub(crate) fn slack_totals(analysis: &Analysis) -> SlackTotals
    ensures { AreSlackTotals analysis.now.stored.design result }
{
    let totals = analysis.totals(0);
    SlackTotals {
        setup_wns: totals.setup_wns,
        setup_tns: totals.setup_tns,
        hold_wns: totals.hold_wns,
        hold_tns: totals.hold_tns,
    }
}
