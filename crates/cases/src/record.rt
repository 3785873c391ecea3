// `record HEX`: the facts of a push record.
use crate::case::Case;
use crate::error::CaseError;
use live_host::record::PushRecord;

pub(crate) fn record_case(case: &mut Case<'_>) -> Result<(), CaseError> {
    let bytes = case.last_bytes()?;
    match PushRecord::read(&bytes) {
        Ok(record) => {
            case.line.word("facts")?;
            case.line.list(record.facts())?;
        }
        Err(fault) => case.line.refused(fault.number())?,
    }
    Ok(())
}
