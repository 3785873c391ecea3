// What a byte is to the scanner.
ghost use Rattle.std.specs.Prelude.{◌≡◌};
ghost use Rattle.scanner.specs.Bytes.{class};

#[derive(Clone, Copy)]
pub enum Class {
    // tab, carriage return or blank: it parts words
    Blank,
    // it parts words and ends a comment
    LineFeed,
    Open,
    Close,
    // it opens a comment
    Semicolon,
    // it belongs to a word
    Letter,
    // it stands in no text
    Foreign,
}

pub fn class_of(byte: u8) -> Class
    ensures { result ≡ class byte }
{
    match char::from(byte) {
        '\t' | '\r' | ' ' => Class::Blank,
        '\n' => Class::LineFeed,
        '(' => Class::Open,
        ')' => Class::Close,
        ';' => Class::Semicolon,
        '"' => Class::Foreign,
        '!'..='~' => Class::Letter,
        _ => Class::Foreign,
    }
}
