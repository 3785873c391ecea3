// Rule to bytes.
ghost use Rattle.std.specs.Prelude.{◌≡◌, ◌*◌, length, take, IfOk, Ok};
ghost use Rattle.packing.specs.Packing.{words_bytes, words_in};
ghost use Rattle.stored.specs.Stored.{heading, loaded, stored, storing, written};

use crate::rule::{BorrowedRule, HEADER_BYTES, MOST_WORDS, StoreFault, VERSION};
use packing::WORD_BYTES;

// The bytes in front of the words, if the rule's numbers have room in them.
fn header(rule: &BorrowedRule<'_>) -> Result<[u8; HEADER_BYTES], StoreFault>
    ensures { result ≡ heading rule.now }
{
    // The limit on words lies below what two bytes can say, so no conversion finds it.
    if rule.words.len() > MOST_WORDS {
        return Err(StoreFault::TooManyWords);
    }
    let globals = u16::try_from(rule.globals).map_err(|_| StoreFault::Globals)?;
    let entry = u16::try_from(rule.entry).map_err(|_| StoreFault::Entry)?;
    let [v0, v1] = VERSION.to_le_bytes();
    // `as` loses nothing: the number was compared above
    let [w0, w1] = (rule.words.len() as u16).to_le_bytes();
    let [g0, g1] = globals.to_le_bytes();
    let [e0, e1] = entry.to_le_bytes();
    Ok([b'N', b'S', b'C', v0, v1, w0, w1, g0, g1, e0, e1])
}

fn write_words(out: &mut [u8], words: &[u32])
    requires { length out.old ≡ 4 * length words.now }
    ensures bytes { out.new ≡ words_bytes words.now }
    ensures again { words_in out.new ≡ words.now }
{
    // Not by packing's `set_word`, which would answer for each place whether it is there. By chunks_exact_mut the proof stays
    // open (tried): std then says nothing of what the bytes are at the end.
    for (i, word) in words.iter().enumerate() {
        let at = WORD_BYTES * i;
        out[at..at + WORD_BYTES].copy_from_slice(&word.to_le_bytes());
    }
}

// The bytes go to the front of `out`, whose rest stays; a refusal leaves all of it.
pub fn store(rule: &BorrowedRule<'_>, out: &mut [u8]) -> Result<usize, StoreFault>
    ensures answer { result ≡ storing (length rule.now.words) rule.now.globals rule.now.entry (length out.old) }
    ensures after { out.new ≡ written result (stored rule.now) out.old }
    ensures again { IfOk result (λ n. loaded (take n out.new) ≡ Ok rule.now) }
{
    let header = header(rule)?;
    let length = HEADER_BYTES + WORD_BYTES * rule.words.len();
    if out.len() < length {
        return Err(StoreFault::NoRoom);
    }
    out[..HEADER_BYTES].copy_from_slice(&header);
    write_words(&mut out[HEADER_BYTES..length], rule.words);
    Ok(length)
}
