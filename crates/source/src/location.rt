// The line and column of a place.
ghost use Rattle.std.specs.Prelude.{◌≡◌, ◌≤◌, length};
ghost use Rattle.source.specs.Lines.{behind_feed, feeds, line_part, location};

const LINE_FEED: u8 = b'\n';

// Lines and columns are counted from 1, columns in bytes; the line is the part of the text from `start` to `end`.
#[derive(Clone, Copy)]
pub struct Location {
    pub line: usize,
    pub column: usize,
    pub start: usize,
    pub end: usize,
}

// Here and below, with what `few` says the places in `locate` are added up. No chain: `filter(..).count()` branches at each
// byte, and `nut check` took up to four times as long where lines are short.
fn count_feeds(bytes: &[u8]) -> usize
    ensures answer { result ≡ feeds bytes.now }
    ensures few { result ≤ length bytes.now }
{
    let mut count = 0;
    for byte in bytes {
        count += usize::from(*byte == LINE_FEED);
    }
    count
}

// How far the line goes on from the front.
fn line_ahead(bytes: &[u8]) -> usize
    ensures answer { result ≡ length (line_part bytes.now) }
    ensures few { result ≤ length bytes.now }
{
    bytes.iter().take_while(|b| **b != LINE_FEED).count()
}

// How many bytes stand behind the last line feed.
fn bytes_behind(bytes: &[u8]) -> usize
    ensures answer { result ≡ behind_feed bytes.now }
    ensures few { result ≤ length bytes.now }
{
    bytes.iter().rev().take_while(|b| **b != LINE_FEED).count()
}

// A place behind the text counts as its end.
pub fn locate(text: &[u8], place: usize) -> Location
    ensures answer { result ≡ location text.now place }
    ensures within { (result.start ≤ result.end) × (result.end ≤ length text.now) }
{
    let place = place.min(text.len());
    let (before, behind) = text.split_at(place);
    let back = bytes_behind(before);
    Location {
        line: count_feeds(before) + 1,
        column: back + 1,
        start: place - back,
        end: place + line_ahead(behind),
    }
}
