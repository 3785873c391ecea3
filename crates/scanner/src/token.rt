// What a text is made of.

// A name or a number: a part of the text, with the place of its first byte.
#[derive(Clone, Copy)]
pub struct Word<'a> {
    pub bytes: &'a [u8],
    pub place: usize,
}

#[derive(Clone, Copy)]
pub enum Token<'a> {
    Open(usize),
    Close(usize),
    Name(Word<'a>),
    // with its value
    Number(Word<'a>, i32),
}
