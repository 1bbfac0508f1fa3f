// A text as it is printed.

use crate::printing;
use crate::printing::text;
use std::io;

// A byte of a text: a line feed as `/`, and another byte that does not print as `\` and two hex digits.
fn shown(rt: &impl Print, b: u8) -> io::Result<()> {
    if b == b'\n' {
        return text(rt, b"/");
    }
    if b < 32 || 126 < b {
        return printing::hex(rt, b'\\', b);
    }
    let one = [b];
    text(rt, &one)
}

// The first n bytes of a text, in quotes.
pub fn quoted(rt: &impl Print, list: &[u8], n: usize) -> io::Result<()> {
    text(rt, b" \"")?;
    list.iter().take(n).try_for_each(|b| shown(rt, *b))?;
    text(rt, b"\"")
}
