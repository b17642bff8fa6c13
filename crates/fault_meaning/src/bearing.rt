/// What a line of a script means for what is built.
#[derive(Clone, Copy, PartialEq, Eq)]
pub enum Bearing {
    /// After it a build may have other texts analysed, or keep others.
    Unsettles,
    /// It builds.
    Builds,
    /// It does neither.
    Stays,
}
