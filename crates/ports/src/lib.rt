//! The edge of the program: every byte that it reads or writes goes through here.
//!
//! `Files` and `Sink` are traits whose contracts say what a call does to the bytes that are left or written,
//! where an implementation tells them, and to its counts of faults: a count rises by one at a call that fails,
//! and at no other.
//! `HonestFiles` and `HonestSink` are ports in memory that tell everything and never fail. `MemFiles` and
//! `MemSink` tell everything too; their calls are numbered, those of some numbers fail, and each moves a few
//! bytes at most. `DropSink` takes every piece and keeps nothing.
//!
//! A sink may be given a note besides, for a human, which is no part of what is written.
//!
//! `SinkOver` and `FilesOver` are ports over any `Outlet`, and over anything that can `Open` inlets by name:
//! they tell what these tell, and meet all clauses whatever they are over. So what a program adds to a port is
//! an outlet or an opener, inside of it. `Writer` and `Reader` make an outlet and an inlet of what the standard
//! library has; `real_sink` and `real_files` are over standard output and the system's files. Only the opening
//! of a file, and what the system does, is trusted. A `Vec` of bytes is an outlet in memory, and `MemOpener` an
//! opener.
//!
//! The layers above use two calls. `send` writes a whole text: on `Ok` the sink grew by it, and after a
//! fault by a prefix of it. `read_front` gives the first `most` bytes of what a name holds.
//!
//! ```text
//! let mut files = HonestFiles::new(alloc, table);
//! let mut out = HonestSink::new(alloc);
//! let text = read_front(alloc, &mut files, "row.net", 1000)?;
//! send(&mut out, &text)?;
//! ```
//!
//! The proofs of crates above cite `ResultLemmas`, `SendingLemmas` and `TakenLemmas`, whose heads say
//! what they are of.
#![tactic(auto)]

mod calls;
mod drop_sink;
mod files_over;
mod honest_files;
mod honest_sink;
mod mem_files;
mod mem_outer;
mod mem_sink;
mod outer;
mod ports;
mod reading;
mod real_ports;
mod sending;
mod sink_over;

pub use drop_sink::DropSink;
pub use files_over::FilesOver;
pub use honest_files::HonestFiles;
pub use honest_sink::HonestSink;
pub use mem_files::MemFiles;
pub use mem_outer::{MemInlet, MemOpener};
pub use mem_sink::MemSink;
pub use outer::{Inlet, Open, Outlet};
pub use ports::{Files, NotedFile, PortFault, Sink};
pub use reading::read_front;
pub use real_ports::{
    HostFiles, Reader, RealFiles, RealOutlet, RealSink, Writer, real_files, real_outlet, real_sink,
};
pub use sending::send;
pub use sink_over::SinkOver;
