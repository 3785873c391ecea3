// A byte as the letter that it shows.

// None where it shows none.
pub(crate) fn letter(byte: u8) -> Option<char> {
    Some(char::from(byte)).filter(|letter| matches!(letter, ' '..='~'))
}
