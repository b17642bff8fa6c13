//! The port of a talk.
ghost use Rattle.std.specs.Prelude.{◌≡◌, ℕ, Bool, List, Option, option_map, IfOk, OnOk, OnErr};
ghost use Rattle.ports.specs.Ports.{faults_after, refusals_after};
ghost use Rattle.talk_port.specs.Talks.{TalkData, Hears, SaysPart, said_next};

use ports::{NotedFile, PortFault};

/// How many bytes of a line are kept, its LF not counted: as many as tell what is wrong with it.
pub const KEPT_BYTES: usize = 65_538;

/// A port at which lines are heard and something is said behind each.
///
/// Contracts see the talk so far, if an implementation tells it: the lines that were heard, and what was said behind
/// each. They see how many bytes were said and not handed on yet; how often no line could be heard; and how often
/// nothing could be said or handed on, and how often memory was refused for that.
pub trait Talk {
    ghost talk: { Self → Option TalkData };

    ghost behind: { Self → ℕ };

    ghost unheard: { Self → ℕ };

    ghost faults: { Self → ℕ };

    ghost refusals: { Self → ℕ };

    /// Hands on what was said.
    fn hand_on(&mut self) -> Result<(), PortFault>
        ensures talk { talk self.new ≡ talk self.old }
        ensures handed { OnOk result (behind self.new ≡ 0) }
        ensures hearing { unheard self.new ≡ unheard self.old }
        ensures cause { faults self.new ≡ faults_after (faults self.old) result }
        ensures memory { refusals self.new ≡ refusals_after (refusals self.old) result };

    /// Hears the next line and puts the prefix of it that is kept into `line`; or answers that the end was heard.
    ///
    /// A line is asked for only if all that was said is handed on. After a fault no line was heard.
    fn hear(&mut self, line: &mut Vec<u8>) -> Result<bool, PortFault>
        requires handed { behind self.old ≡ 0 }
        ensures heard { IfOk result (λ more. Hears (talk self.old) (talk self.new) more line.new.items) }
        ensures err { OnErr result (talk self.new ≡ talk self.old) }
        ensures behind { behind self.new ≡ 0 }
        ensures hearing { unheard self.new ≡ faults_after (unheard self.old) result }
        ensures cause { faults self.new ≡ faults self.old }
        ensures memory { refusals self.new ≡ refusals self.old };

    /// Says the whole piece behind the last line. After a fault a prefix of it was said.
    fn say(&mut self, piece: &[u8]) -> Result<(), PortFault>
        ensures ok { OnOk result (talk self.new ≡ option_map (said_next piece.now) (talk self.old)) }
        ensures part { OnErr result (SaysPart (talk self.old) (talk self.new) piece.now) }
        ensures hearing { unheard self.new ≡ unheard self.old }
        ensures cause { faults self.new ≡ faults_after (faults self.old) result }
        ensures memory { refusals self.new ≡ refusals_after (refusals self.old) result };

    /// Notes for a human what a file has, by a text that follows the file's name.
    ///
    /// A note is nothing that is said, and may be passed over: nothing else is said of it.
    fn note(&mut self, _file: NotedFile, _text: &[u8])
        ensures talk { talk self.new ≡ talk self.old }
        ensures behind { behind self.new ≡ behind self.old }
        ensures hearing { unheard self.new ≡ unheard self.old }
        ensures cause { faults self.new ≡ faults self.old }
        ensures memory { refusals self.new ≡ refusals self.old }
    {}
}
