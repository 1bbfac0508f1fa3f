// A byte stored into a buffer that is lent.
// No heap: what is written goes into what is lent, and the place after it is told.

ghost use Rattle.std.specs.Prelude.{◌≡◌, set};

// A byte at a place, where there is such a place. A byte past the buffer's end is left out.
pub fn put(out: &mut [u8], at: usize, byte: u8)
    ensures { out.new ≡ set out.old at byte }
{
    if at < out.len() {
        out[at] = byte;
    }
}
