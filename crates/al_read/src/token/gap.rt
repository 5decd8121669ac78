//! What stands between tokens.

ghost use Rattle.std.specs.Prelude.{◌≡◌, drop, false};
ghost use Rattle.al_read.specs.Tokens as form;
ghost use Rattle.al_read.specs.TokenReading as reading;

pub fn is_separator(byte: u8) -> bool
    ensures { result ≡ form.is_separator byte }
{
    byte == b' ' || byte == b'\t' || byte == b'\r' || byte == b'\n'
}

fn is_between(inside: bool, byte: u8) -> bool
    ensures { result ≡ form.is_between inside byte }
{
    inside || is_separator(byte) || byte == b';'
}

fn is_inside(inside: bool, byte: u8) -> bool
    ensures { result ≡ form.is_inside inside byte }
{
    byte != b'\n' && (inside || byte == b';')
}

fn gap_len(bytes: &[u8]) -> usize
    ensures { result ≡ reading.gap_len false bytes.now }
{
    let mut inside = false;
    for (i, byte) in bytes.iter().enumerate() {
        if !is_between(inside, *byte) {
            return i;
        }
        inside = is_inside(inside, *byte);
    }
    bytes.len()
}

/// What stands behind the separators and comments at the front.
pub fn after_gap(bytes: &[u8]) -> &[u8]
    ensures { result.now ≡ drop (reading.gap_len false bytes.now) bytes.now }
{
    let (_, piece) = bytes.split_at(gap_len(bytes));
    piece
}
