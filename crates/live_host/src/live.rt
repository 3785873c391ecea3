// The host of a real push.
ghost use Rattle.std.specs.Prelude.{◌≡◌, length, take, drop};
ghost use Rattle.stack.specs.Held.{cells};
ghost use Rattle.live_host.specs.Live.{facts_of, place_of, report_of, spare_of};
ghost use Rattle.live_host.specs.Records.{facts_in};

use crate::record::PushRecord;
use runtime::host::{Facts, Full, PushHost};
use stack::Stack;

// Facts from a push record, the report in the caller's buffer: byte upon byte, the last one on top.
#[derive(Drop)]
pub struct LiveHost<'a> {
    pub(crate) source: PushRecord<'a>,
    pub(crate) report: Stack<'a, u8>,
}

impl<'a> LiveHost<'a> {
    // Over a refused record the host has no facts. The buffer may already hold a report, of its first `written` bytes, all
    // of it where that says more; it is lent, so this is told beside it.
    pub fn new(push: &'a [u8], buffer: &'a mut [u8], written: usize) -> LiveHost<'a>
        ensures facts { facts_of result ≡ facts_in push.now }
        ensures report { report_of result ≡ take written buffer.old }
        ensures spare { spare_of result ≡ drop written buffer.old }
        ensures lent { (cells result.report ≡ buffer.old) × (place_of result ≡ buffer.entry.ghost_name) }
    {
        LiveHost {
            source: PushRecord::read(push).unwrap_or(PushRecord::none()),
            report: Stack::over(buffer, written),
        }
    }

    // How long the report is.
    pub fn report_len(&self) -> usize
        ensures { result ≡ length (report_of self.now) }
    {
        self.report.depth()
    }
}

impl Facts for LiveHost<'_> {
    ghost facts = { facts_of };

    fn count(&self) -> usize {
        self.source.count()
    }

    fn fact(&self, k: usize) -> Option<i32> {
        self.source.fact(k)
    }
}

impl PushHost for LiveHost<'_> {
    ghost report = { report_of };

    ghost spare = { spare_of };

    ghost place = { place_of };

    fn space(&self) -> usize {
        self.report.room()
    }

    fn put(&mut self, b: u8) -> Result<(), Full> {
        self.report.push(b).map_err(|_| Full)
    }
}
