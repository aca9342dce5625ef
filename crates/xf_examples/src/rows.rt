//! Worked rows: what some calls are answered, and what may not stand.
ghost use Rattle.xf_examples.specs.BatchRows.{BatchRows};
ghost use Rattle.xf_examples.specs.FlowRows.{FlowRows};
ghost use Rattle.xf_examples.specs.HistoryRows.{HistoryRows};
ghost use Rattle.xf_examples.specs.IndexRows.{IndexRows};
ghost use Rattle.xf_examples.specs.RefusedBatchRows.{RefusedBatchRows};
ghost use Rattle.xf_examples.specs.RefusedHistoryRows.{RefusedHistoryRows};
ghost use Rattle.xf_examples.specs.PolicyFilterRows.{PolicyFilterRows};
ghost use Rattle.xf_examples.specs.ThresholdRows.{ThresholdRows};
ghost use Rattle.xf_examples.specs.PolicyRows.{PolicyRows};
ghost use Rattle.xf_examples.specs.StateFilterRows.{StateFilterRows};
ghost use Rattle.xf_examples.specs.WindowRows.{WindowRows};
ghost use Rattle.xf_examples.specs.LimitRows.{LimitRows};
ghost use Rattle.xf_examples.specs.OwnRows.{OwnRows};
ghost use Rattle.xf_examples.specs.ChangeRows.{ChangeRows};
ghost use Rattle.xf_examples.specs.StateRows.{StateRows};

/// Rows on policies.
pub fn policy_rows()
    ensures { PolicyRows }
{}

/// Rows on states.
pub fn state_rows()
    ensures { StateRows }
{}

/// Rows on flows.
pub fn flow_rows()
    ensures { FlowRows }
{}

/// Rows on histories.
pub fn history_rows()
    ensures { HistoryRows }
{}

/// Rows on batches.
pub fn batch_rows()
    ensures { BatchRows }
{}

/// Rows on indices and keys of policies.
pub fn index_rows()
    ensures { IndexRows }
{}

/// Rows on filters of policies.
pub fn policy_filter_rows()
    ensures { PolicyFilterRows }
{}

/// Rows on thresholds.
pub fn threshold_rows()
    ensures { ThresholdRows }
{}

/// Rows on filters of states.
pub fn state_filter_rows()
    ensures { StateFilterRows }
{}

/// Rows on windows.
pub fn window_rows()
    ensures { WindowRows }
{}

/// Rows on limits.
pub fn limit_rows()
    ensures { LimitRows }
{}

/// Rows on own parts.
pub fn own_rows()
    ensures { OwnRows }
{}

/// Rows on change ids.
pub fn change_rows()
    ensures { ChangeRows }
{}

/// Rows on histories that may not be.
pub fn refused_history_rows()
    ensures { RefusedHistoryRows }
{}

/// Rows on histories that are no shuffle of a phase.
pub fn refused_batch_rows()
    ensures { RefusedBatchRows }
{}
