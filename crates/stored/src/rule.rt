// What a stored rule tells, and why one is refused.
ghost use Rattle.std.specs.Prelude.{◌≡◌, Some};
ghost use Rattle.stored.specs.Stored.{load_number, load_words, rule, Rule, store_number, store_words};

use std::error::Error;
use std::fmt;
use std::marker::Model;

pub const MOST_WORDS: usize = 8192;

pub const VERSION: u16 = 1;

const MARK_BYTES: usize = 3;

const COUNTS_BYTES: usize = 8;

pub(crate) const HEADER_BYTES: usize = MARK_BYTES + COUNTS_BYTES;

#[derive(Clone, Copy)]
pub struct RuleHeader {
    pub words: usize,
    pub globals: usize,
    pub entry: usize,
}

// A rule to be stored, whose words stay the caller's.
#[derive(Drop)]
pub struct BorrowedRule<'a> {
    pub words: &'a [u32],
    pub globals: usize,
    pub entry: usize,
}

impl<'a> Model for BorrowedRule<'a> {
    ghost Value = { Rule };

    ghost view = { λ r. rule r.globals r.entry r.words.now };
}

// Not one type with the faults of a push record: the formats differ in what they count, and change apart.
#[derive(Clone, Copy, Debug, PartialEq, Eq)]
pub enum LoadFault {
    // fewer bytes than a header has
    Short,
    // it does not begin with NSC
    Mark,
    Version,
    TooManyWords,
    // not the bytes of as many words as the header says
    Length,
    // the caller's buffer is shorter than the rule
    NoRoom,
}

impl LoadFault {
    // Three faults have one number, so the numbers are no discriminants.
    pub fn number(self) -> u8
        ensures { result ≡ load_number self }
    {
        match self {
            LoadFault::Short => 13,
            LoadFault::Mark => 11,
            LoadFault::Version => 12,
            LoadFault::TooManyWords => 13,
            LoadFault::Length => 13,
            LoadFault::NoRoom => 18,
        }
    }
}

impl fmt::Display for LoadFault {
    ghost output = { λ fault. Some (load_words fault) };

    fn fmt<W: fmt::Write>(&self, f: &mut fmt::Formatter<W>) -> fmt::Result {
        f.write_str(match self {
            LoadFault::Short => "it is shorter than the header of 11 bytes",
            LoadFault::Mark => "it does not begin with NSC",
            LoadFault::Version => "its version is not 1",
            LoadFault::TooManyWords => "it says that it has over 8,192 words",
            LoadFault::Length => "it is not as long as its word count says",
            LoadFault::NoRoom => "its words do not fit the buffer",
        })
    }
}

impl Error for LoadFault {}

#[derive(Clone, Copy, Debug, PartialEq, Eq)]
pub enum StoreFault {
    TooManyWords,
    // more globals than two bytes can say
    Globals,
    // an entry address that two bytes cannot say
    Entry,
    // the caller's buffer is shorter than the stored rule
    NoRoom,
}

impl StoreFault {
    // Three faults have one number, so the numbers are no discriminants.
    pub fn number(self) -> u8
        ensures { result ≡ store_number self }
    {
        match self {
            StoreFault::TooManyWords => 13,
            StoreFault::Globals => 13,
            StoreFault::Entry => 13,
            StoreFault::NoRoom => 18,
        }
    }
}

impl fmt::Display for StoreFault {
    ghost output = { λ fault. Some (store_words fault) };

    fn fmt<W: fmt::Write>(&self, f: &mut fmt::Formatter<W>) -> fmt::Result {
        f.write_str(match self {
            StoreFault::TooManyWords => "it has over 8,192 words",
            StoreFault::Globals => "it has over 65,535 globals",
            StoreFault::Entry => "its entry address is over 65,535",
            StoreFault::NoRoom => "the bytes do not fit the buffer",
        })
    }
}

impl Error for StoreFault {}
