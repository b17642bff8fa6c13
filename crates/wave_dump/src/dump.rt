//! The writer of a dump.
ghost use Rattle.std.specs.Prelude.{◌≡◌, ◌≤◌, ◌++◌, List, [], true, None, Some, All, IsSome, OnOk, OnErr, is_some, length};
ghost use Rattle.settling.specs.Moved.{ListsChanges};
ghost use Rattle.ports.specs.Ports.{faults_after, refusals_after};
ghost use Rattle.ternary.specs.declared.tern.Tern.{Tern};
ghost use Rattle.told_lines.specs.Lines.{IsShort, line_seen, line_text, room_of};
ghost use Rattle.wave_dump.specs.Comments.{comment};
ghost use Rattle.wave_dump.specs.Dumps.{ending};
ghost use Rattle.wave_dump.specs.Entries.{IsInside};
ghost use Rattle.wave_dump.specs.Pens.{IsSent};
ghost use Rattle.wave_dump.specs.Writing as spec;
ghost use Rattle.wave_dump.specs.Writing.{Shows, first_sheet, refusal_lines, without_end};

use crate::changes::{write_changes, write_changes_of_all};
use crate::entries::{Entry, Numbers, lists_if_room};
use crate::header::{refresh_all, write_header};
use crate::marking::could_mark;
use crate::pen::Pen;
use crate::putting::{write_comment, write_time};
use ports::{NotedFile, PortFault, Sink};
use printed_lines::LineBuf;
use settling::{Moved, Never, Observer, Onlooker};
use std::alloc::Global;
use std::marker::Model;
use ternary::{NoMemory, Tern};
use told_lines::{Line, Lines, put_told};

/// A writer of a dump to its sink: it hears the lines of a run, and looks on at its steps and phases.
///
/// It takes words to watch before the first step or phase; the run is ended by `finish`. No unit step costs
/// more than the entries of the nodes that it changed, if there was memory to list these.
///
/// No look fails. Once a fault came, of the sink or of memory for a line, nothing more is written, and contracts
/// still see all that was due; each line that is told from then on answers the fault, and so does `finish`.
#[derive(Drop)]
pub struct Dump<S: Sink + Drop> {
    alloc: Global,
    pen: Pen<S>,
    entries: Vec<Entry>,
    // for each node the entries that have it, if they are listed
    lists: Vec<Numbers>,
    is_listed: bool,
    // the entries that a step may have changed
    marked: Vec<usize>,
    time: u64,
    // the time at which the last step or phase began
    start: u64,
    is_open: bool,
    is_begun: bool,
    // the text of a line that is heard
    raw: LineBuf,
    refused: Option<Vec<u8>>,
    // how often a fault was answered, and how often refused memory
    faults: u64,
    refusals: u64,
}

impl<S: Sink + Drop> Model for Dump<S> {
    ghost use Rattle.std.specs.Prelude.{◌≡◌, [], IsTrue, option_map};
    ghost use Rattle.wave_dump.specs.Entries.{AreListed, entries_of};
    ghost use Rattle.wave_dump.specs.Writing.{DumpData, page_held};

    ghost Value = { DumpData };

    ghost view = { λ dump. record {
      sheet = record {
        before = dump.pen.before;
        page = page_held dump.is_begun dump.time dump.entries.items;
        start = dump.start;
        is_open = dump.is_open;
        refused = option_map (λ text. text.items) dump.refused;
        due = dump.pen.text;
      };
      room = dump.raw.spare;
      faults = dump.faults;
      refusals = dump.refusals;
    } };

    ghost invariant = { λ dump. record {
      listed : IsTrue dump.is_begun → IsTrue dump.is_listed → AreListed (entries_of dump.entries.items) dump.lists.items;
      empty : dump.raw.bytes ≡ [];
    } };
}

impl<S: Sink + Drop> Dump<S> {
    /// A writer that has told nothing yet, with an empty line in which others are laid out.
    pub fn new(alloc: Global, raw: LineBuf, sink: S) -> Dump<S>
        requires { raw.bytes ≡ [] }
        ensures sheet { result.sheet ≡ first_sheet (record { written = S.written sink; faults = S.faults sink; refusals = S.refusals sink }) }
        ensures room { result.room ≡ raw.spare }
        ensures faults { result.faults ≡ 0 }
        ensures refusals { result.refusals ≡ 0 }
    {
        Dump {
            alloc,
            pen: Pen::new(alloc, sink),
            entries: Vec::new(alloc),
            lists: Vec::new(alloc),
            is_listed: false,
            marked: Vec::new(alloc),
            time: 0,
            start: 0,
            is_open: false,
            is_begun: false,
            raw,
            refused: None,
            faults: 0,
            refusals: 0,
        }
    }

    /// Whether a step or a phase was told: then no more words are watched.
    pub fn is_begun(&self) -> bool
        ensures { result ≡ is_some self.now.sheet.page.shown }
    {
        self.is_begun
    }

    /// Watches a word, which stands for these nodes, before the first step or phase.
    pub fn watch(&mut self, name: &[u8], nodes: &[usize]) -> Result<(), NoMemory>
        requires { self.old.sheet.page.shown ≡ None }
        ensures ok { OnOk result (self.new ≡ record self.old { sheet = spec.watch self.old.sheet (record { name = name.now; nodes = nodes.now }) }) }
        ensures err { OnErr result (self.new ≡ self.old) }
    {
        let entry = Entry::new(self.alloc, name, nodes)?;
        match self.entries.push(entry) {
            Ok(()) => Ok(()),
            Err(_) => Err(NoMemory),
        }
    }

    /// Hands back the sink of a run that was stopped, without an end.
    ///
    /// On `Ok` the sink grew by all that was due so far, and after a fault by a prefix of that.
    pub fn close(self) -> (S, Result<(), PortFault>)
        ensures { IsSent self.sheet.before self.sheet.due
            (record { written = S.written result.0; faults = S.faults result.0; refusals = S.refusals result.0 }) result.1 }
    {
        let Dump { pen, .. } = self;
        pen.finish()
    }

    /// Ends the run in this state: writes what changed since the last step or phase, or the header if
    /// there was none, and the line of the refusal that was heard, if one was.
    ///
    /// On `Ok` the sink grew by all that was due. After a fault, which may have come long ago, it grew by a
    /// prefix of that, and the fault was the only one.
    pub fn finish(self, states: &[Tern]) -> (S, Result<(), PortFault>)
        requires { All (IsInside (length states.now)) self.sheet.page.entries }
        ensures { IsSent self.sheet.before (spec.finished self.sheet states.now)
            (record { written = S.written result.0; faults = S.faults result.0; refusals = S.refusals result.0 }) result.1 }
    {
        let mut dump = self;
        dump.write_end(states);
        let Dump { pen, .. } = dump;
        pen.finish()
    }

    // Writes what the end in this state writes.
    fn write_end(&mut self, states: &[Tern])
        requires { All (IsInside (length states.now)) self.old.sheet.page.entries }
        ensures due { self.new.sheet.due ≡ spec.finished self.old.sheet states.now }
        ensures before { self.new.sheet.before ≡ self.old.sheet.before }
    {
        self.write_ending(states);
        self.write_refusal()
    }

    // Writes the line of the refusal that was heard, if one was.
    fn write_refusal(&mut self)
        ensures due { self.new.sheet.due ≡ self.old.sheet.due ++ refusal_lines self.old.sheet.refused }
        ensures before { self.new.sheet.before ≡ self.old.sheet.before }
    {
        match &self.refused {
            Some(text) => write_comment(&mut self.pen, text),
            None => {}
        }
    }

    // Writes what the end writes before the line of a refusal.
    fn write_ending(&mut self, states: &[Tern])
        requires { All (IsInside (length states.now)) self.old.sheet.page.entries }
        ensures due { self.new.sheet.due ≡ self.old.sheet.due ++ ending self.old.sheet.page self.old.sheet.page.shown states.now }
        ensures refused { self.new.sheet.refused ≡ self.old.sheet.refused }
        ensures before { self.new.sheet.before ≡ self.old.sheet.before }
    {
        if !self.is_begun {
            return self.write_start(states);
        }
        write_time(&mut self.pen, self.time);
        self.write_all_changes(states, true)
    }

    // Writes the header in this state: the entries, and their values.
    fn write_start(&mut self, states: &[Tern])
        requires begun { self.old.sheet.page.shown ≡ None }
        requires inside { All (IsInside (length states.now)) self.old.sheet.page.entries }
        ensures { self.new ≡ record self.old { sheet = spec.open_in self.old.sheet states.now } }
    {
        let (lists, is_listed) = lists_if_room(self.alloc, &self.entries, states.len());
        refresh_all(&mut self.entries, states);
        write_header(&mut self.pen, &self.entries);
        self.lists = lists;
        self.is_listed = is_listed;
        self.is_begun = true;
    }

    // Writes the values that changed in this state, of all entries, behind the line of the time if that
    // isn't told yet.
    fn write_all_changes(&mut self, states: &[Tern], is_told: bool)
        requires begun { IsSome self.old.sheet.page.shown }
        requires inside { All (IsInside (length states.now)) self.old.sheet.page.entries }
        ensures { self.new ≡ record self.old { sheet = spec.with_changes self.old.sheet is_told states.now } }
    {
        write_changes_of_all(&mut self.pen, &mut self.entries, states, self.time, is_told)
    }

    // Writes what is due before a step or a phase in this state.
    fn write_due(&mut self, states: &[Tern])
        requires { All (IsInside (length states.now)) self.old.sheet.page.entries }
        ensures { self.new ≡ record self.old { sheet = spec.open_in self.old.sheet states.now } }
    {
        if self.is_begun {
            self.write_all_changes(states, false)
        } else {
            self.write_start(states)
        }
    }

    // Writes what changed in a state more of a step or a phase, of all entries.
    fn pass_whole(&mut self, states: &[Tern])
        requires begun { IsSome self.old.sheet.page.shown }
        requires inside { All (IsInside (length states.now)) self.old.sheet.page.entries }
        ensures { self.new ≡ record self.old { sheet = spec.pass self.old.sheet states.now } }
    {
        self.time = self.time.saturating_add(1);
        self.write_all_changes(states, false)
    }

    // Writes what changed in a state more of a step or a phase.
    fn pass<M: Moved>(&mut self, moved: &M)
        requires { (old : List Tern) × Shows self.old.sheet old × (self.old.sheet.is_open ≡ true) × ListsChanges (M.changed moved.now) old (M.state moved.now) }
        ensures { self.new ≡ record self.old { sheet = spec.pass self.old.sheet (M.state moved.now) } }
    {
        if !could_mark(self.is_listed, &self.lists, moved, &mut self.marked) {
            return self.pass_whole(moved.states());
        }
        self.time = self.time.saturating_add(1);
        write_changes(
            &mut self.pen,
            &mut self.entries,
            &self.marked,
            moved.states(),
            self.time,
            false,
        )
    }

    // Writes the text of a line as a comment.
    fn comment_line(&mut self, line: Line)
        requires room { room_of (line_seen line) ≤ self.old.room }
        requires short { IsShort (line_seen line) }
        ensures { self.new ≡ record self.old { sheet = spec.with_text self.old.sheet (comment (without_end (line_text (line_seen line.entry)))) } }
    {
        put_told(&mut self.raw, false, 0, line);
        write_comment(&mut self.pen, without_lf(self.raw.bytes()));
        self.raw.clear();
    }

    // Keeps the text of a line for the end.
    fn keep_line(&mut self, line: Line) -> Result<(), NoMemory>
        requires room { room_of (line_seen line) ≤ self.old.room }
        requires short { IsShort (line_seen line) }
        ensures ok { OnOk result (self.new ≡ record self.old {
          sheet = record self.old.sheet { refused = Some (without_end (line_text (line_seen line.entry))) };
        }) }
        ensures err { OnErr result (self.new ≡ self.old) }
    {
        put_told(&mut self.raw, false, 0, line);
        let kept = Vec::from_slice(self.alloc, without_lf(self.raw.bytes()));
        self.raw.clear();
        match kept {
            Ok(text) => {
                self.refused = Some(text);
                Ok(())
            }
            Err(_) => Err(NoMemory),
        }
    }

    /// Answers the fault after which nothing more is written, if one came, and counts it.
    pub fn answer(&mut self) -> Result<(), PortFault>
        ensures same { self.new ≡ record self.old { faults = self.new.faults; refusals = self.new.refusals } }
        ensures faults { self.new.faults ≡ faults_after self.old.faults result }
        ensures refusals { self.new.refusals ≡ refusals_after self.old.refusals result }
    {
        match self.pen.fault() {
            None => Ok(()),
            Some(PortFault::Failed) => {
                self.faults = self.faults.saturating_add(1);
                Err(PortFault::Failed)
            }
            Some(PortFault::NoMemory) => self.refuse(),
        }
    }

    // Answers that memory was refused, and counts it.
    fn refuse(&mut self) -> Result<(), PortFault>
        ensures fault { result ≡ Err PortFault.NoMemory }
        ensures same { self.new ≡ record self.old { refusals = refusals_after self.old.refusals result } }
    {
        self.refusals = self.refusals.saturating_add(1);
        Err(PortFault::NoMemory)
    }
}

// A line without the LF at its end.
fn without_lf(line: &[u8]) -> &[u8]
    ensures { result.now ≡ without_end line.now }
{
    &line[..line.len().saturating_sub(1)]
}

impl<S: Sink + Drop> Lines for Dump<S> {
    ghost use Rattle.wave_dump.specs.Writing.{Sheet, hear, HearsPart};

    ghost Heard = { Sheet };

    ghost heard = { λ dump. dump.sheet };

    ghost hear = { hear };

    ghost part = { HearsPart };

    ghost room = { λ dump. dump.room };

    ghost faults = { λ dump. dump.faults };

    ghost refusals = { λ dump. dump.refusals };

    fn reserve(&mut self, bytes: usize) -> Result<(), NoMemory> {
        self.raw.reserve(bytes)
    }

    fn tell(&mut self, _column: u32, line: Line) -> Result<(), PortFault> {
        match line {
            Line::Wave { .. } => {}
            Line::Unmet { .. } | Line::Shown { .. } | Line::Reported { .. } => {
                self.comment_line(line)
            }
            Line::Looked { .. } | Line::AtEnd { .. } | Line::AtGate { .. } => {
                self.comment_line(line)
            }
            Line::Refused { .. } => {
                if self.keep_line(line).is_err() {
                    return self.refuse();
                }
            }
        }
        self.answer()
    }

    fn note(&mut self, file: NotedFile, text: &[u8]) {
        self.pen.note(file, text);
    }
}

impl<S: Sink + Drop> Observer for Dump<S> {
    ghost use Rattle.wave_dump.specs.Writing.{Sheet, see_state, begin, rest, Shows};

    type Fault = Never;

    ghost Seen = { Sheet };

    ghost seen = { λ dump. dump.sheet };

    ghost see = { see_state };

    ghost begin = { begin };

    ghost rest = { rest };

    ghost knows = { λ dump state. Shows dump.sheet state };

    ghost fixed = { λ _. tt };

    ghost part = { λ _ _ _ _. ⊥ };

    fn see<M: Moved>(&mut self, moved: &M) -> Result<(), Never> {
        if self.is_open {
            self.pass(moved);
        }
        Ok(())
    }
}

impl<S: Sink + Drop> Onlooker for Dump<S> {
    ghost looks = { true };

    ghost blind = { λ is _ _. absurd (Prim.cc) };

    ghost sure = { λ is _ _. absurd (Prim.cc) };

    #[inline]
    fn is_looking(&self) -> bool {
        true
    }

    fn begin<M: Moved>(&mut self, moved: &M) {
        self.start = self.time;
        self.is_open = true;
        self.write_due(moved.states())
    }

    fn rest(&mut self, steps: u64) {
        self.time = self.start.saturating_add(steps).saturating_add(1);
        self.is_open = false;
    }

    fn grow(&mut self, state: &[Tern]) -> Result<(), NoMemory> {
        if self.is_open {
            self.pass_whole(state);
        }
        Ok(())
    }
}
