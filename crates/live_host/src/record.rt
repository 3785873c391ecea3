// A push record: what the server tells of a push, as bytes.
ghost use Rattle.std.specs.Prelude.{◌≡◌, ◌*◌, ◌≤◌, [], length, IfOk};

use packing::{WORD_BYTES, cell_at};
use runtime::host::Facts;
use std::error::Error;
use std::fmt;

const HEADER_LEN: usize = 6;

const VERSION: u16 = 1;

const MOST_FACTS: usize = 64;

// Why bytes are no push record.
#[derive(Clone, Copy, Debug, PartialEq, Eq)]
pub enum RecordFault {
    // Fewer bytes than the header has.
    Short,
    // The first three bytes are not `PSH`.
    Mark,
    // The version is not 1.
    Version,
    // More than 64 facts.
    TooManyFacts,
    // Not as many bytes as the facts take.
    Length,
}

impl RecordFault {
    ghost use Rattle.live_host.specs.Records.{number_of};

    // The number that the fault is known by. A table, since three faults share 13, and discriminants differ.
    pub fn number(self) -> u8
        ensures { result ≡ number_of self }
    {
        match self {
            RecordFault::Short => 13,
            RecordFault::Mark => 11,
            RecordFault::Version => 12,
            RecordFault::TooManyFacts => 13,
            RecordFault::Length => 13,
        }
    }
}

impl fmt::Display for RecordFault {
    ghost use Rattle.std.specs.Prelude.{Some};
    ghost use Rattle.live_host.specs.Records.{words_of};

    ghost output = { λ fault. Some (words_of fault) };

    fn fmt<W: fmt::Write>(&self, f: &mut fmt::Formatter<W>) -> fmt::Result {
        f.write_str(match self {
            RecordFault::Short => "it is shorter than the header of 6 bytes",
            RecordFault::Mark => "it does not begin with PSH",
            RecordFault::Version => "its version is not 1",
            RecordFault::TooManyFacts => "it says that it has over 64 facts",
            RecordFault::Length => "it is not as long as its fact count says",
        })
    }
}

impl Error for RecordFault {}

// The facts of a record that was accepted, at most 64, four bytes each, the low byte first.
#[derive(Clone, Copy)]
pub struct PushRecord<'a> {
    pub(crate) numbers: &'a [u8],
    ghost few: { length numbers.now ≤ 4 * 64 },
}

impl<'a> PushRecord<'a> {
    ghost use Rattle.live_host.specs.Records.{body, facts_left, facts_of, read, record_bytes, Sent};

    // Takes the header apart; the facts stay where they are.
    #[tactic(auto, using(crate::proofs::Sent::sent, crate::proofs::Sent::read_again))]
    pub fn read(bytes: &'a [u8]) -> Result<PushRecord<'a>, RecordFault>
        ensures answer { read result ≡ body bytes.now }
        ensures again { IfOk result (λ p. record_bytes (facts_of p) ≡ bytes.now) }
        ensures sent { Sent }
    {
        if bytes.len() < HEADER_LEN {
            return Err(RecordFault::Short);
        }
        let [b'P', b'S', b'H', low, high, count, rest @ ..] = bytes else {
            return Err(RecordFault::Mark);
        };
        if u16::from_le_bytes([*low, *high]) != VERSION {
            return Err(RecordFault::Version);
        }
        let count = usize::from(*count);
        if count > MOST_FACTS {
            return Err(RecordFault::TooManyFacts);
        }
        if rest.len() != WORD_BYTES * count {
            return Err(RecordFault::Length);
        }
        Ok(PushRecord { numbers: rest })
    }

    // The facts in order.
    #[tactic(auto, using(packing::proofs::Cells::length_cells))]
    pub fn facts(&self) -> FactsLeft<'a>
        ensures facts { facts_left result ≡ facts_of self.now }
        ensures few { length (facts_left result) ≤ 64 }
    {
        FactsLeft {
            numbers: self.numbers,
        }
    }

    // The record of a push of which nothing is known.
    pub(crate) fn none() -> PushRecord<'a>
        ensures { result.numbers.now ≡ [] }
    {
        PushRecord { numbers: &[] }
    }
}

impl Facts for PushRecord<'_> {
    ghost use Rattle.live_host.specs.Records.{facts_of};

    ghost facts = { facts_of };

    #[tactic(auto, using(packing::proofs::Cells::length_cells))]
    fn count(&self) -> usize {
        self.numbers.len() / WORD_BYTES
    }

    fn fact(&self, k: usize) -> Option<i32> {
        cell_at(self.numbers, k)
    }
}

// The facts of a record that are still to come.
#[derive(Drop)]
pub struct FactsLeft<'a> {
    pub(crate) numbers: &'a [u8],
}

impl Iterator for FactsLeft<'_> {
    ghost use Rattle.std.specs.Iterator.{item_count, YieldsFirst};
    ghost use Rattle.live_host.specs.Records.{facts_left};

    type Item = i32;

    ghost next_gives = { YieldsFirst facts_left };

    ghost remaining = { item_count facts_left };

    fn next(&mut self) -> Option<i32> {
        let (fact, rest) = self.numbers.split_first_chunk()?;
        self.numbers = rest;
        Some(i32::from_le_bytes(*fact))
    }
}
