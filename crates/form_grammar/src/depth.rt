//! How many parentheses pieces open.
ghost use Rattle.std.specs.Prelude.{◌≡◌, ◌+◌};
ghost use Rattle.form_grammar.specs.Depth.{opened_behind as opened_behind_piece, opened_by, with_room as with_room_for};

use crate::reader::MOST_OPEN;
use form_ast::Piece;

/// So many that are open then, where a further one may be.
fn with_room(opened: usize, behind: usize) -> Option<usize>
    ensures { result ≡ with_room_for opened behind }
{
    if opened < MOST_OPEN {
        Some(behind)
    } else {
        None
    }
}

/// How many are open behind one that is opened, where it may be.
fn with_another(opened: usize) -> Option<usize>
    ensures { result ≡ with_room_for opened (opened + 1) }
{
    if opened < MOST_OPEN {
        Some(opened + 1)
    } else {
        None
    }
}

/// How many are open behind a piece, where no more than may be are open in it.
fn opened_behind(opened: usize, piece: &Piece) -> Option<usize>
    ensures { result ≡ opened_behind_piece opened piece.now }
{
    match piece {
        Piece::Delta(_, _) | Piece::Raised(true, _, _) => with_room(opened, opened),
        Piece::Call(_, _) | Piece::Open(_) => with_another(opened),
        Piece::EndOfCall | Piece::Close => Some(opened.saturating_sub(1)),
        _ => Some(opened),
    }
}

/// How many are open behind these pieces, where so many are open before them, and no more than may be in them.
#[tactic(auto, unfolding(crate::specs::Depth::opened_by))]
pub fn opened_behind_all(opened: usize, pieces: &[Piece]) -> Option<usize>
    ensures { result ≡ opened_by opened pieces.now }
{
    let mut opened = opened;
    for piece in pieces {
        let Some(behind) = opened_behind(opened, piece) else {
            return None;
        };
        opened = behind;
    }
    Some(opened)
}
