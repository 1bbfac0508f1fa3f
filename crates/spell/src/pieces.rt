// Pieces of what is shown of a line, put into a lent page from a place on: bytes in hex, and blanks. Each function answers the place after what it put.
// No heap: what is written goes into what is lent, and the place after it is told.

ghost use Rattle.std.specs.Prelude.{◌≡◌, ◌+◌, ◌*◌, ◌<◌, ◌≤◌, length, replicate};
ghost use Rattle.spelling.specs.Text.{Put};
ghost use Rattle.spell.specs.Shown.{hex_digit, hex_spaced};

// A hex digit, in small letters.
fn digit(n: u8) -> u8
    requires { n < 16 }
    ensures { result ≡ hex_digit n }
{
    if n < 10 { b'0' + n } else { b'a' + (n - 10) }
}

// Bytes as two hex digits each, a blank before each.
pub fn put_hex(out: &mut [u8], at: usize, bytes: &[u8]) -> usize
    requires { at + 3 * length bytes.now ≤ length out.old }
    ensures put { Put out.old out.new at (hex_spaced bytes.now) result }
    ensures value { result ≡ at + 3 * length bytes.now }
{
    let mut next = at;
    for byte in bytes {
        out[next] = b' ';
        out[next + 1] = digit(*byte / 16);
        out[next + 2] = digit(*byte % 16);
        next += 3;
    }
    next
}

// So many blanks.
pub fn put_blanks(out: &mut [u8], at: usize, n: usize) -> usize
    requires { at + n ≤ length out.old }
    ensures put { Put out.old out.new at (replicate n 32) result }
    ensures value { result ≡ at + n }
{
    let end = at + n;
    out[at..end].fill(b' ');
    end
}
