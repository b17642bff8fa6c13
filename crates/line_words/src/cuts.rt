//! A text cut into lines, and a line cut into words.

ghost use Rattle.std.specs.Prelude.{◌≡◌, ◌↔◌, ◌≤◌, List, length, ℕ};
ghost use Rattle.std.specs.List.{enumerate_from};
ghost use Rattle.line_words.specs.Lines.{lines_of, IsText, CountsFeeds};
ghost use Rattle.line_words.specs.Words.{words_of, IsLine};

use crate::line_cursor::Lines;
use crate::word_cursor::Words;

/// The lines of a text, in order and numbered from 1.
///
/// A line ends at LF. A last line without LF counts if it isn't empty. A CR that is a line's last
/// byte is no part of it; any other CR is. A run over all lines reads each byte of the text at most
/// twice.
pub fn lines(text: &[u8]) -> Lines<'_>
    ensures numbered { result ≡ enumerate_from 1 (lines_of text.now) }

    // The lines are those of the grammar, and no others.
    ensures grammar { (parts : List (List ℕ)) → IsText text.now parts ↔ (parts ≡ lines_of text.now) }
    ensures count { length result ≡ length (lines_of text.now) }
    ensures bound { length result ≤ length text.now }

    // The line that holds a byte has one LF less before that byte than its number.
    ensures holding { CountsFeeds text.now }
{
    Lines::of_text(text)
}

/// The words of a line, in order: the longest runs of bytes without space and tab.
///
/// A run over all words reads each byte of the line at most twice.
pub fn words(bytes: &[u8]) -> Words<'_>
    ensures parts { result ≡ words_of bytes.now }

    // The words are those of the grammar, and no others.
    ensures grammar { (parts : List (List ℕ)) → IsLine bytes.now parts ↔ (parts ≡ words_of bytes.now) }
    ensures bound { length result ≤ length bytes.now }
{
    Words::of_line(bytes)
}
