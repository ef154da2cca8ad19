// Bytes that one byte divides into pieces: a line's fields by commas, a listing's lines by line feeds.
ghost use Rattle.std.specs.Prelude.{◌≤◌, length};
ghost use Rattle.lines.specs.Pieces.{PieceEnd};

// Where the piece that begins at `from` ends: at the next dividing byte, or where all bytes end. (By index: with
// `position`, which counts from `from` on, the place of each field of a line is the sum of all lengths before it.)
pub fn piece_end(bytes: &[u8], from: usize, byte: u8) -> usize
    requires { from ≤ length bytes.now }
    ensures { PieceEnd bytes.now from byte result }
{
    for e in from..bytes.len() {
        if bytes[e] == byte {
            return e;
        }
    }
    bytes.len()
}
