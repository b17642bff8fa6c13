//! The law of records, over all runs.
ghost use Rattle.good_run.specs.Laws.{RecordsTellThePasses};

/// A law: a record of which nothing was left out has just the states of the steps and phases that were shown, in order.
pub fn records_tell_the_passes()
    ensures { RecordsTellThePasses }
{}
