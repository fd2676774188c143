//! The worked figures of the documents.
ghost use Rattle.settlement.specs.WorkedAmounts.{SettlementFigures};
ghost use Rattle.stage.specs.WorkedStages.{StageFigures};

/// The worked figures of open positions, trades, stages, penalties and balance amounts follow from
/// the definitions. The contract is that table.
pub fn worked_figures()
    ensures stages { StageFigures }
    ensures amounts { SettlementFigures }
{}
