// A table of words in slots of equal width: the bytes of a word and, where it is shorter, a zero after it.

ghost use Rattle.std.specs.Prelude.{◌≡◌, ◌*◌, ◌≤◌, length};
ghost use Rattle.names.specs.Slots.{fits as Slots·fits, padded, slot_of};

// Whether a slot has a word.
fn fits(slot: &[u8], word: &[u8]) -> bool
    ensures { result ≡ Slots·fits slot.now word.now }
{
    slot.starts_with(word) && (slot.len() == word.len() || slot[word.len()] == 0)
}

// The number of the first slot that has a word, from 0, among `count` of them, if any has it.
pub fn find(slots: &[u8], width: usize, count: usize, word: &[u8]) -> Option<usize>
    requires { width * count ≤ length slots.now }
    ensures { result ≡ slot_of width count slots.now word.now }
{
    for k in 0..count {
        let at = width * k;
        if fits(&slots[at..at + width], word) {
            return Some(k);
        }
    }
    None
}

// Puts a word into a slot, with zeros after it.
pub fn put(slot: &mut [u8], word: &[u8])
    ensures { slot.new ≡ padded (length slot.old) word.now }
{
    let n = slot.len().min(word.len());
    slot[..n].copy_from_slice(&word[..n]);
    slot[n..].fill(0);
}
