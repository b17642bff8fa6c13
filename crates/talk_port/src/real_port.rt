//! The talk over standard input and any outlet. What standard input gives is told nowhere.

use crate::line_talk::LineTalk;
use crate::outlet::Flush;
use crate::prompting::Prompting;
use std::alloc::AllocError;
use std::io;

/// The talk over standard input, with a prompt, and an outlet.
pub type RealTalk<'r, W> = LineTalk<Prompting<'r, io::Stdin>, W>;

/// The talk over the standard input that this runtime reaches, and this outlet. No fault and no refusal is counted.
pub fn real_talk<W: Flush + Drop>(
    rt: &HostRuntime,
    outlet: W,
) -> Result<RealTalk<'_, W>, AllocError> {
    let reader = Prompting::over(rt.stdin(), rt);
    LineTalk::new(rt.alloc(), reader, outlet)
}
