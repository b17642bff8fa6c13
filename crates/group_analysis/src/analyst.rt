ghost use Rattle.std.specs.Prelude.{◌≡◌, List, [], ◌∷◌, ◌++◌, IfOk, OnOk, OnErr};
ghost use Rattle.group_text.specs.Texts.{GroupTextData};
ghost use Rattle.group_analysis.specs.Meaning.{MeansText};
ghost use Rattle.group_analysis.specs.Held.{TextSet, with_text, without_text};

use group_text::GroupText;
use std::alloc::Global;
use straight_code::Code;
use ternary::NoMemory;

/// Who makes code of the texts of groups.
///
/// Contracts see the list of the texts that were analysed, and the set of the texts that are held: those
/// for which the analyst keeps what it worked out. The code of a text stands by itself, so it may be used
/// after its text was released.
pub trait Analyst {
    ghost analysed: { Self → List GroupTextData };

    ghost held: { Self → TextSet };

    /// Code that means the text.
    ///
    /// On `Ok` the list of analysed texts grew by this one, which is held; lack of memory, the only error,
    /// leaves both.
    fn analyse(&mut self, alloc: Global, text: &GroupText) -> Result<Code, NoMemory>
        ensures means { IfOk result (λ code. MeansText text.now code) }
        ensures ok { OnOk result (analysed self.new ≡ analysed self.old ++ text.now ∷ []) }
        ensures holds { OnOk result (held self.new ≡ with_text (held self.old) text.now) }
        ensures err { OnErr result (analysed self.new ≡ analysed self.old) }
        ensures holds_same { OnErr result (held self.new ≡ held self.old) };

    /// Holds the text no more. The list of analysed texts stays, and so do all other texts that are held.
    /// It takes no memory.
    fn release(&mut self, text: &GroupText)
        ensures analysed { analysed self.new ≡ analysed self.old }
        ensures holds { held self.new ≡ without_text (held self.old) text.now };

    /// Gives back what serves no text that is held. The texts that were analysed and those that are held
    /// stay, also out of memory, the only error.
    fn compact(&mut self) -> Result<(), NoMemory>
        ensures analysed { analysed self.new ≡ analysed self.old }
        ensures holds { held self.new ≡ held self.old };
}
