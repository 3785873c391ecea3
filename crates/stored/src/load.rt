// Bytes to rule: mark, version, counts, then the words.
ghost use Rattle.std.specs.Prelude.{◌≡◌, ◌+◌, ◌*◌, length, take, IfOk};
ghost use Rattle.packing.specs.Packing.{words_in};
ghost use Rattle.stored.specs.Stored.{filled, header_in, loading, rule_of, stored};

use crate::rule::{HEADER_BYTES, LoadFault, MOST_WORDS, RuleHeader, VERSION};
use packing::WORD_BYTES;

// The number in two bytes.
fn half(low: u8, high: u8) -> usize
    ensures { result ≡ low + high * 256 }
{
    usize::from(u16::from_le_bytes([low, high]))
}

fn header(bytes: &[u8]) -> Result<RuleHeader, LoadFault>
    ensures { result ≡ header_in bytes.now }
{
    if bytes.len() < HEADER_BYTES {
        return Err(LoadFault::Short);
    }
    let [b'N', b'S', b'C', v0, v1, w0, w1, g0, g1, e0, e1, rest @ ..] = bytes else {
        return Err(LoadFault::Mark);
    };
    if u16::from_le_bytes([*v0, *v1]) != VERSION {
        return Err(LoadFault::Version);
    }
    let words = half(*w0, *w1);
    if words > MOST_WORDS {
        return Err(LoadFault::TooManyWords);
    }
    if rest.len() != WORD_BYTES * words {
        return Err(LoadFault::Length);
    }
    Ok(RuleHeader {
        words,
        globals: half(*g0, *g1),
        entry: half(*e0, *e1),
    })
}

fn read_words(bytes: &[u8], words: &mut [u32])
    requires { length bytes.now ≡ 4 * length words.old }
    ensures { words.new ≡ words_in bytes.now }
{
    // Not by packing's `word_at`, which would answer for each place whether it is there. Words and chunks zipped leave the
    // proof open (tried): std then says nothing of what the words are at the end.
    let (fours, _) = bytes.as_chunks::<WORD_BYTES>();
    for (i, word) in words.iter_mut().enumerate() {
        *word = u32::from_le_bytes(fours[i]);
    }
}

// The words go to the front of the buffer, whose rest stays; a refusal leaves all of it.
pub fn load(bytes: &[u8], words: &mut [u32]) -> Result<RuleHeader, LoadFault>
    ensures answer { result ≡ loading bytes.now (length words.old) }
    ensures after { words.new ≡ filled result bytes.now words.old }
    ensures again { IfOk result (λ h. stored (rule_of h (take h.words words.new)) ≡ bytes.now) }
{
    let header = header(bytes)?;
    if words.len() < header.words {
        return Err(LoadFault::NoRoom);
    }
    read_words(&bytes[HEADER_BYTES..], &mut words[..header.words]);
    Ok(header)
}
