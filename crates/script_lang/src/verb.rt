ghost use Rattle.std.specs.Prelude.{◌≡◌};
ghost use Rattle.script_lang.specs.Commands.{verb_of};

/// The first word of a command.
#[derive(Clone, Copy, PartialEq, Eq)]
pub(crate) enum Verb {
    Input,
    Store,
    Set,
    Charge,
    Watch,
    Limit,
    Step,
    Phase,
    Clock,
    Cycle,
    Expect,
    Show,
    Look,
    Add,
    Del,
    Strength,
    Kind,
    Wire,
    Report,
    Keep,
    Wide,
    Save,
    Back,
    Vector,
}

/// The verb that a word is, compared byte by byte.
pub(crate) fn verb_named(word: &[u8]) -> Option<Verb>
    ensures { result ≡ verb_of word.now }
{
    match word {
        b"input" => Some(Verb::Input),
        b"store" => Some(Verb::Store),
        b"set" => Some(Verb::Set),
        b"charge" => Some(Verb::Charge),
        b"watch" => Some(Verb::Watch),
        b"limit" => Some(Verb::Limit),
        b"step" => Some(Verb::Step),
        b"phase" => Some(Verb::Phase),
        b"clock" => Some(Verb::Clock),
        b"cycle" => Some(Verb::Cycle),
        b"expect" => Some(Verb::Expect),
        b"show" => Some(Verb::Show),
        b"look" => Some(Verb::Look),
        b"add" => Some(Verb::Add),
        b"del" => Some(Verb::Del),
        b"strength" => Some(Verb::Strength),
        b"type" => Some(Verb::Kind),
        b"wire" => Some(Verb::Wire),
        b"report" => Some(Verb::Report),
        b"keep" => Some(Verb::Keep),
        b"wide" => Some(Verb::Wide),
        b"save" => Some(Verb::Save),
        b"back" => Some(Verb::Back),
        b"vector" => Some(Verb::Vector),
        _ => None,
    }
}
