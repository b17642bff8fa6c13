//! What holds of a stage of columns, whatever is done to it.

ghost use Rattle.column_machine_stage.specs.Laws.{ActsKeepColumns, StepsStepEachColumn};

/// A law: whatever is done to the stage, act by act, it has as many columns still.
pub fn acts_keep_columns()
    ensures { ActsKeepColumns }
{}

/// A law: what a command that takes a unit step does to the stage, a build and a step, leads each column by one unit step
/// of the graph, from the states that it had before the build.
pub fn steps_step_each_column()
    ensures { StepsStepEachColumn }
{}
