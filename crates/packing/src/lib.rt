// Numbers of 32 bits packed in four bytes each, the low byte first.
#![tactic(auto)]

ghost use Rattle.std.specs.Prelude.{◌≡◌, ◌/◌, length, if◌then◌else◌, is_ok, nat_lt};
ghost use Rattle.std.specs.List.{slice_get};
ghost use Rattle.packing.specs.Packing.{cells_of, packed_in, words_in};

// How many bytes one number has.
pub const WORD_BYTES: usize = 4;

// No number of that place lies whole in the bytes. Not the error of a memory, which this crate does not know.
#[derive(Clone, Copy, Debug, PartialEq, Eq)]
pub struct Outside;

// Number i of those that lie whole in the bytes.
pub fn word_at(bytes: &[u8], i: usize) -> Option<u32>
    ensures { result ≡ slice_get (words_in bytes.now) i }
{
    let (words, _) = bytes.as_chunks::<WORD_BYTES>();
    words.get(i).copied().map(u32::from_le_bytes)
}

// The same with a sign.
pub fn cell_at(bytes: &[u8], i: usize) -> Option<i32>
    ensures { result ≡ slice_get (cells_of bytes.now) i }
{
    word_at(bytes, i).map(u32::cast_signed)
}

// Writes number i; no byte is altered where it does not lie whole in the bytes.
pub fn set_word(bytes: &mut [u8], i: usize, word: u32) -> Result<(), Outside>
    ensures answer { is_ok result ≡ nat_lt i (length bytes.old / 4) }
    ensures after { bytes.new ≡ (if is_ok result then packed_in bytes.old i word else bytes.old) }
{
    if i >= bytes.len() / WORD_BYTES {
        return Err(Outside);
    }
    // By a chunk of chunks_exact_mut or a part of get_mut the proof does not close: std does not say what the bytes are then.
    let at = WORD_BYTES * i;
    bytes[at..at + WORD_BYTES].copy_from_slice(&word.to_le_bytes());
    Ok(())
}
