//! What holds of a session's machine, whatever the commands are.

ghost use Rattle.machine_stage.specs.Laws.{CommandsMoveMachines, HeldMachinesServe, StillStagesKeepMachines};
ghost use Rattle.machine_stage.specs.Machines.{OnlyEditsLoseMachines};

/// A law: what an accepted command does to a session's stage, act by act, says what it does to its machine. After a step
/// at most those groups are marked that read a node which it changed, or whose parts have no code, since they are
/// stepped by vicinities; and the machine moved once if something changed. After phases it moved as often as their lines
/// say, no member was placed, and if the last came to rest it is at rest. `set` and `charge` keep it and mark at most
/// what their nodes concern, `back` what the nodes concern whose states differ, and `set` places no member. `report`
/// leaves its counts, and what only sets or tells leaves it. A machine that is there after an edit was there before.
pub fn commands_move_the_machine()
    ensures { CommandsMoveMachines }
{}

/// A law: a command that is refused, or lacks memory before it began, leaves the machine as it was.
pub fn refused_commands_leave_the_machine()
    ensures { StillStagesKeepMachines }
{}

/// A law: the machine of a session, if there is one, covers its circuit, has its state, and each text whose code a part has
/// is kept.
pub fn held_machines_serve()
    ensures { HeldMachinesServe }
{}

/// A law: where an accepted command found a machine and leaves none, it edited the circuit.
pub fn only_edits_lose_the_machine()
    ensures { OnlyEditsLoseMachines }
{}
