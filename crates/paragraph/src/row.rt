// Words and spans as rows that name a piece of the table below.
ghost use Rattle.paragraph.specs.Pieces.{word_piece, span_piece};
ghost use Rattle.paragraph.specs.declared.piece.Piece.{Piece};
ghost use Rattle.std.specs.Prelude.{◌≡◌};

use crate::piece::Piece;
use crate::span::Span;
use crate::word::Word;

/// A row of a table that cuts the table below it into pieces.
pub trait Row {
    ghost piece_of: { Self → Piece };

    fn piece(&self) -> Piece
        ensures { result ≡ piece_of self.now };
}

impl Row for Word {
    ghost piece_of = { word_piece };

    fn piece(&self) -> Piece {
        Piece {
            offset: self.offset,
            len: self.len,
            lawful: true,
        }
    }
}

impl Row for Span {
    ghost piece_of = { span_piece };

    fn piece(&self) -> Piece {
        Piece {
            offset: self.offset,
            len: self.len,
            lawful: self.level <= 126,
        }
    }
}
