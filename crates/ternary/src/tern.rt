ghost use Rattle.std.specs.Prelude.{◌≡◌, ◌↔◌, ◌||◌, false, IfSome, IsNone};
ghost use Rattle.ternary.specs.Tern.{may_one, may_zero, of_rails, join, letter, of_letter};

/// The state of a node.
#[derive(Clone, Copy, Debug, PartialEq, Eq, Hash)]
pub enum Tern {
    /// The node is 0.
    Zero,
    /// The node is 1.
    One,
    /// X: the node is unknown, or between 0 and 1.
    Unk,
}

impl Tern {
    /// The join of two states: equal states stay, different ones give X.
    pub fn join(self, other: Tern) -> Tern
        ensures value { result ≡ join self other }
        ensures one { may_one result ≡ (may_one self || may_one other) }
        ensures zero { may_zero result ≡ (may_zero self || may_zero other) }
    {
        if self == other { self } else { Tern::Unk }
    }

    /// The rail "may be 1".
    pub fn may_one(self) -> bool
        ensures { result ≡ may_one self }
    {
        self != Tern::Zero
    }

    /// The rail "may be 0".
    pub fn may_zero(self) -> bool
        ensures { result ≡ may_zero self }
    {
        self != Tern::One
    }

    /// The state with these rails, or None if neither is set.
    pub fn from_rails(one: bool, zero: bool) -> Option<Tern>
        ensures value { result ≡ of_rails one zero }
        ensures rails { IfSome result (λ state. (may_one state ≡ one) × (may_zero state ≡ zero)) }
        ensures neither { IsNone result ↔ ((one ≡ false) × (zero ≡ false)) }
    {
        match (one, zero) {
            (true, true) => Some(Tern::Unk),
            (true, false) => Some(Tern::One),
            (false, true) => Some(Tern::Zero),
            (false, false) => None,
        }
    }

    /// The letter that stands for the state in printed lines: `0`, `1` or `X`.
    pub fn letter(self) -> u8
        ensures value { result ≡ letter self }
        ensures read { of_letter result ≡ Some self }
    {
        match self {
            Tern::Zero => b'0',
            Tern::One => b'1',
            Tern::Unk => b'X',
        }
    }

    /// The state that a letter stands for, or None if it is none of `0`, `1`, `X` and `x`.
    pub fn from_letter(letter: u8) -> Option<Tern>
        ensures { result ≡ of_letter letter }
    {
        match letter {
            b'0' => Some(Tern::Zero),
            b'1' => Some(Tern::One),
            b'X' | b'x' => Some(Tern::Unk),
            _ => None,
        }
    }
}
