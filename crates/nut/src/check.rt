// `nut check FILE`: every definition of a file, and why the others are refused.
use crate::report::Report;
use crate::text::Text;
use anyhow::{anyhow, ensure};
use source::texts::Texts;
use std::alloc::{AllocError, Global};
use std::fs;

// The definitions of the file in order, then their number.
pub(crate) fn report_on(heap: Global, path: &str, file: &[u8]) -> Result<Report, AllocError> {
    let mut report = Report::new(heap);
    for part in Texts::new(file) {
        report.add(Text { path, file, part })?;
    }
    report.sum_up(path)?;
    Ok(report)
}

pub(crate) fn check(rt: &HostRuntime, path: &str) -> anyhow::Result<()> {
    let file = fs::read(rt, path).map_err(|error| anyhow!("{path}: {error}"))?;
    let report = report_on(rt.alloc(), path, &file)?;
    let text = report.text();
    print!(rt; "{text}")?;
    ensure!(!report.has_refused(), "some definitions are refused");
    Ok(())
}
