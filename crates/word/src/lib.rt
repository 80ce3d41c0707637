#![tactic(auto)]
// A u32 in little-endian bytes, at any position. Every caller has tested the length.

ghost use Rattle.std.specs.Prelude.{◌≡◌, ◌+◌, ◌≤◌, length};
ghost use Rattle.word.specs.Word.{word_at, put_word};

// The u32 whose four bytes start at `at`, the lowest first. It compiles to one load.
#[tactic(auto, using(crate::proofs::Laws::word_by_bytes))]
pub fn read(bytes: &[u8], at: usize) -> u32
    requires { at + 4 ≤ length bytes.now }
    ensures { result ≡ word_at bytes.now at }
{
    u32::from_le_bytes([bytes[at], bytes[at + 1], bytes[at + 2], bytes[at + 3]])
}

// Stores the u32's four bytes from `at` on, the lowest first. It compiles to one store.
#[tactic(auto, using(crate::proofs::Laws::put_by_std))]
pub fn write(bytes: &mut [u8], at: usize, word: u32)
    requires { at + 4 ≤ length bytes.old }
    ensures { bytes.new ≡ put_word bytes.old at word }
{
    bytes[at..at + 4].copy_from_slice(&word.to_le_bytes());
}
