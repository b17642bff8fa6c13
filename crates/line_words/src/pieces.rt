//! Pieces of a text, as a reader is given them one after the other.

ghost use Rattle.std.specs.Prelude.{◌≡◌, ◌↔◌, position, IfSome, IsNone};
ghost use Rattle.line_words.specs.Bytes.{is_line_feed};
ghost use Rattle.line_words.specs.Lines.{HasNoFeed};
ghost use Rattle.line_words.specs.Pieces.{EndsLine};

/// The place of the first LF of a piece, at which its first line ends.
///
/// `None` exactly if the piece has no LF.
pub fn line_end(piece: &[u8]) -> Option<usize>
    ensures first { result ≡ position is_line_feed piece.now }
    ensures none { IsNone result ↔ HasNoFeed piece.now }
    ensures ends { IfSome result (EndsLine piece.now) }
{
    piece.iter().position(|&byte| byte == b'\n')
}
