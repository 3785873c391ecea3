// The first two passes over a text.
ghost use Rattle.std.specs.Prelude.{◌≡◌};
ghost use Rattle.scanner.specs.Faults.{scan_faults, scan_refusal, refused_by};
ghost use Rattle.scanner.specs.Laws.{EachByteOwned, InOrderAndApart, PartsOfTheText};
ghost use Rattle.scanner.specs.Scans.{items_of, sound};

use crate::fault::{MOST_TEXT, ScanFault};
use crate::scanner::Scanner;

// The first fault that the scanner meets.
fn scan_tokens(text: &[u8]) -> Result<(), ScanFault>
    ensures { result ≡ sound (items_of text.now) }
{
    for read in Scanner::new(text) {
        read?;
    }
    Ok(())
}

// The refusal is the least of the faults.
#[tactic(auto, using(crate::proofs::Scanned::scanned))]
pub fn scan(text: &[u8]) -> Result<(), ScanFault>
    ensures answer { result ≡ refused_by scan_refusal (scan_faults text.now) }
    ensures parts { PartsOfTheText text.now }
    ensures apart { InOrderAndApart text.now }
    ensures owned { EachByteOwned text.now }
{
    if text.len() > MOST_TEXT {
        return Err(ScanFault::TextTooLong);
    }
    scan_tokens(text)
}
