// The private pool's pieces as words.
ghost use Rattle.std.specs.Prelude.{◌≡◌};
ghost use Rattle.std.proofs.lemmas.List.Edits.{sets};
ghost use Rattle.table_calls.specs.Pool.{pieces_words};

use address_space::AllocatedRange;
use table_words::put_words;

// Three words for each piece.
pub const PIECES_ROOM: usize = 768;

// Nothing is written past the end.
pub fn write_pieces(words: &mut [u64], pieces: &[AllocatedRange])
    ensures { words.new ≡ sets words.old 0 (pieces_words pieces.now) }
{
    for (i, piece) in pieces.iter().enumerate() {
        put_words(
            words,
            3 * i,
            &[piece.range.start, piece.range.end, u64::from(piece.vnode)],
        );
    }
}
