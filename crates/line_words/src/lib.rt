//! Cuts a text into numbered lines and a line into words, and reads decimals.
//!
//! It is the lowest layer under every text that is read: nothing here takes memory, and each line
//! and word is a part of the text that was passed. [`lines`] gives [`Lines`], an iterator that
//! contracts see as the list of the numbered lines that are left, and [`words`] gives [`Words`],
//! seen as the list of the words that are left. So a loop `for line in lines(text)` has as its
//! invariant one equation on that list. [`check_line`] tells the two faults that a line of any
//! text may have, and [`decimal`] is the one way in which numbers are read; [`thousandths`] reads those
//! with a point. [`front`] is what is read of a file, and [`cut_line`] is the number of the line at which
//! a file is too long. A text that comes in pieces is cut by [`line_end`], the place of the first LF of a
//! piece.
//!
//! The layer above rests on the contract of [`lines`]: it gives `lines_of` of the text, numbered
//! from 1. For the proofs of crates above: `VisibleLemmas` says that the words of a line without a
//! fault are visible names, `FileLemmas` that a file goes by its front alone, `CutLemmas` how a list
//! is cut at the first byte that passes a test, `WordLemmas` that words are those of the grammar, and
//! `PieceLemmas` which lines a text has that goes on from lines that have ended.
//!
//! ```text
//! for line in lines(b"set in=1\r\nphase 2\n") {
//!     // line.number is 1, then 2; line.bytes is b"set in=1", then b"phase 2"
//!     check_line(line.bytes)?;
//!     for word in words(line.bytes) {
//!         // b"set", b"in=1"; then b"phase", b"2"
//!     }
//! }
//! ```
//!
//! The proofs of crates above cite `DecimalLemmas`, `FeedLemmas` and `LineLemmas`, whose heads say
//! what they are of.
#![tactic(auto)]

mod bytes;
mod cuts;
mod decimals;
mod files;
mod laws;
mod line_check;
mod line_cursor;
mod pieces;
mod points;
mod word_cursor;

pub use cuts::{lines, words};
pub use decimals::decimal;
pub use files::{MOST_FILE_BYTES, cut_line, front};
pub use laws::limits_are_as_stated;
pub use line_check::{LONGEST_LINE, LineFault, check_line, is_comment};
pub use line_cursor::{Line, Lines, without_return};
pub use pieces::line_end;
pub use points::{MOST_THOUSANDTHS, thousandths};
pub use word_cursor::Words;
