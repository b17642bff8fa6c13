//! The loop of a talk.
ghost use Rattle.std.specs.Prelude.{◌≡◌, ℕ, Bool, List, Option, not, IfOk, OnOk, OnErr};
ghost use Rattle.ports.specs.Ports.{faults_after};
ghost use Rattle.talk_port.specs.Talks.{TalkData, Hears};
ghost use Rattle.talk_port.specs.Conversing.{Answers, Converses, BreaksOff, unheard_after, unsaid_after};

use crate::talks::Talk;
use ports::PortFault;

/// Who answers lines at a port.
///
/// Contracts see a mind, the answers that a line may have in it, and which lines quit. An answer is a relation, since
/// a right one need not be the only one.
pub trait Speaker<T: Talk> {
    ghost Mind: { Type 0 };

    ghost mind: { Self → Self.Mind };

    ghost answers: { Self.Mind → List ℕ → List ℕ → Self.Mind → Type 0 };

    ghost quits: { List ℕ → Bool };

    ghost part: { Self.Mind → List ℕ → Self.Mind → Option TalkData → Option TalkData → Type 0 };

    /// Says the answer to a line, and answers whether the talk goes on.
    fn answer(&mut self, line: &[u8], port: &mut T) -> Result<bool, PortFault>
        ensures answers { OnOk result (Answers answers (mind self.old) line.now (mind self.new) (T.talk port.old) (T.talk port.new)) }
        ensures goes_on { IfOk result (λ more. more ≡ not (quits line.now)) }
        ensures part { OnErr result (part (mind self.old) line.now (mind self.new) (T.talk port.old) (T.talk port.new)) }
        ensures hearing { T.unheard port.new ≡ T.unheard port.old }
        ensures cause { T.faults port.new ≡ faults_after (T.faults port.old) result };
}

/// Why a talk broke off.
#[derive(Clone, Copy, Debug, PartialEq, Eq)]
pub enum Broken {
    /// No line could be heard.
    Unheard(PortFault),

    /// An answer could not be said, or not be handed on.
    Unsaid(PortFault),
}

/// Answers each line as it comes, until the end is heard or a line quits.
///
/// Behind each line its answer is said and handed on before the next one is asked for. If no line can be heard, all
/// that were heard are answered.
pub fn converse<T: Talk, S: Speaker<T>>(
    port: &mut T,
    line: &mut Vec<u8>,
    speaker: &mut S,
) -> Result<(), Broken>
    ensures ok { OnOk result (Converses S.answers S.quits (S.mind speaker.old) (S.mind speaker.new) (T.talk port.old) (T.talk port.new)) }
    ensures err { OnErr result (BreaksOff S.answers S.quits S.part (S.mind speaker.old) (S.mind speaker.new) (T.talk port.old) (T.talk port.new)) }
    ensures handed { OnOk result (T.behind port.new ≡ 0) }
    ensures hearing { T.unheard port.new ≡ unheard_after (T.unheard port.old) result }
    ensures cause { T.faults port.new ≡ unsaid_after (T.faults port.old) result }
{
    for _ in 0..u64::MAX {
        if !ask(port, line)? {
            return Ok(());
        }
        if !reply(port, line, speaker)? {
            return hand_on(port);
        }
    }
    hand_on(port)
}

// Hands on what was said, and hears the next line, or the end.
fn ask<T: Talk>(port: &mut T, line: &mut Vec<u8>) -> Result<bool, Broken>
    ensures heard { IfOk result (λ more. Hears (T.talk port.old) (T.talk port.new) more line.new.items) }
    ensures err { OnErr result (T.talk port.new ≡ T.talk port.old) }
    ensures handed { OnOk result (T.behind port.new ≡ 0) }
    ensures hearing { T.unheard port.new ≡ unheard_after (T.unheard port.old) result }
    ensures cause { T.faults port.new ≡ unsaid_after (T.faults port.old) result }
{
    hand_on(port)?;
    match port.hear(line) {
        Ok(more) => Ok(more),
        Err(fault) => Err(Broken::Unheard(fault)),
    }
}

// Has a line answered, and answers whether the talk goes on.
fn reply<T: Talk, S: Speaker<T>>(port: &mut T, line: &[u8], speaker: &mut S) -> Result<bool, Broken>
    ensures answers { OnOk result (Answers S.answers (S.mind speaker.old) line.now (S.mind speaker.new) (T.talk port.old) (T.talk port.new)) }
    ensures goes_on { IfOk result (λ more. more ≡ not (S.quits line.now)) }
    ensures part { OnErr result (S.part (S.mind speaker.old) line.now (S.mind speaker.new) (T.talk port.old) (T.talk port.new)) }
    ensures hearing { T.unheard port.new ≡ unheard_after (T.unheard port.old) result }
    ensures cause { T.faults port.new ≡ unsaid_after (T.faults port.old) result }
{
    match speaker.answer(line, port) {
        Ok(more) => Ok(more),
        Err(fault) => Err(Broken::Unsaid(fault)),
    }
}

// Hands on what was said.
fn hand_on<T: Talk>(port: &mut T) -> Result<(), Broken>
    ensures talk { T.talk port.new ≡ T.talk port.old }
    ensures handed { OnOk result (T.behind port.new ≡ 0) }
    ensures hearing { T.unheard port.new ≡ unheard_after (T.unheard port.old) result }
    ensures cause { T.faults port.new ≡ unsaid_after (T.faults port.old) result }
{
    match port.hand_on() {
        Ok(()) => Ok(()),
        Err(fault) => Err(Broken::Unsaid(fault)),
    }
}
