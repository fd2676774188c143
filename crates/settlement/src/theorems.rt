//! The laws of trades, positions and amounts.
ghost use Rattle.settlement.specs.Laws.{Balanced, BelowBoth, FartherCostsNoLess, FartherDayNoLess, PenaltyNoLess, Nearest, Away};

/// The contract is the laws: purchases balance, no confirmed trade is above what either side stated,
/// farther out never costs less, and an amount is rounded to the nearest cent, halves away from zero.
pub fn laws_stand()
    ensures balanced { Balanced }
    ensures below_both { BelowBoth }
    ensures farther { FartherCostsNoLess }
    ensures farther_day { FartherDayNoLess }
    ensures penalty { PenaltyNoLess }
    ensures nearest { Nearest }
    ensures away { Away }
{}
