//! What holds of both rules.
ghost use Rattle.stage.specs.Laws.{MarkedDayCounts};

/// Under either rule a marked day has stage 1 or more.
pub fn marked_days()
    ensures { MarkedDayCounts }
{}
