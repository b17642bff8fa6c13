//! The lines that a run of a script prints, as bytes in a buffer that is made before the run.
//!
//! The main type is `LineBuf`: bytes with a number `spare` of bytes that can be added without
//! memory. The layer above reserves room, which may be refused, before it changes anything. Then it
//! calls the writers of lines, which can't be refused: each appends exactly its line, and lowers
//! `spare` by exactly the line's length.
//!
//! ```text
//! wave_line(&mut out, 7, 2, true, &[Tern::One, Tern::Unk])
//!     appends `7 2* 1X` and LF
//! fault_line(&mut out, FaultPlace::NetWhole, FaultCode::G1GroupNodes, b"s1", 201)
//!     appends `net: G1 GroupNodes s1 201` and LF
//! ```
#![tactic(auto)]

mod faults;
mod laws;
mod line_buf;
mod lines;
mod looks;
mod verdicts;

pub use faults::{FAULT_LINE_ROOM, FaultCode, FaultPlace, fault_line};
pub use laws::limits_are_as_stated;
pub use line_buf::LineBuf;
pub use lines::{
    CHECK_LINE_ROOM, COLUMN_ROOM, EXPECT_LINE_ROOM, GROUP_START_ROOM, MOST_VALUES, NUMBER_ROOM,
    REPORT_LINE_ROOM, SHOW_LINE_ROOM, SUMMARY_LINE_ROOM, Summary, WAVE_LINE_ROOM, append_number,
    check_line, column_start, expect_line, group_name, group_start, line_end, report_line,
    show_line, summary_line, wave_line,
};
pub use looks::{
    LOOK_LINE_ROOM, NodeSort, SwitchTold, append_kind, append_sort, append_state, end_line,
    gate_line, look_line,
};
pub use verdicts::{
    FAULTS_LINE_ROOM, VERDICT_LINE_ROOM, detected_line, faults_line, possible_line, refused_line,
    undetected_line,
};
