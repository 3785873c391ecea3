// The host that a rehearsal carries in itself.
ghost use Rattle.std.specs.Prelude.{◌≡◌, ◌≤◌, min, [], replicate};

use crate::filled::Filled;
use runtime::host::{Facts, Full, PushHost};

const MOST_FACTS: usize = 32;

const MOST_BYTES: usize = 256;

// At most 32 facts and a report of at most 256 bytes, by value: copied when a run is set up.
#[derive(Clone, Copy)]
pub struct RehearsalHost {
    pub(crate) facts: Filled<i32, MOST_FACTS>,
    pub(crate) report: Filled<u8, MOST_BYTES>,
    pub(crate) capacity: usize,
    ghost small: { capacity ≤ 256 },
    ghost within: { report.len ≤ capacity },
}

impl RehearsalHost {
    ghost use Rattle.runtime.specs.First.{first};
    ghost use Rattle.rehearsal_host.specs.Rehearsal.{facts_of, report_of, spare_of};

    // Facts past 32 and a capacity past 256 count as these; the report is empty.
    #[tactic(auto, unfolding(runtime::specs::First::first))]
    pub fn new(facts: &[i32], capacity: usize) -> RehearsalHost
        ensures facts { facts_of result ≡ first 32 facts.now }
        ensures report { report_of result ≡ [] }
        ensures spare { spare_of result ≡ replicate (min capacity 256) 0 }
    {
        RehearsalHost {
            facts: Filled::first_of(facts, 0),
            report: Filled::empty(0),
            capacity: capacity.min(MOST_BYTES),
        }
    }

    // The report so far.
    pub fn report(&self) -> &[u8]
        ensures { result.now ≡ report_of self.now }
    {
        self.report.as_slice()
    }
}

impl Facts for RehearsalHost {
    ghost use Rattle.rehearsal_host.specs.Rehearsal.{facts_of};

    ghost facts = { facts_of };

    fn count(&self) -> usize {
        self.facts.len
    }

    fn fact(&self, k: usize) -> Option<i32> {
        self.facts.as_slice().get(k).copied()
    }
}

impl PushHost for RehearsalHost {
    ghost use Rattle.rehearsal_host.specs.Rehearsal.{report_of, spare_of};

    ghost report = { report_of };

    ghost spare = { spare_of };

    ghost place = { λ _. 0 };

    fn space(&self) -> usize {
        self.capacity - self.report.len
    }

    fn put(&mut self, b: u8) -> Result<(), Full> {
        // The capacity may be less than the array, so the array alone cannot refuse.
        if self.report.len >= self.capacity {
            return Err(Full);
        }
        self.report.push(b);
        Ok(())
    }
}
