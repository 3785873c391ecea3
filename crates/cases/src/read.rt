// `read HEX`: what the reader makes of a definition's text.
use crate::case::Case;
use crate::error::CaseError;
use crate::line::Line;
use reader::read::read;
use scanner::fault::Refusal;
use std::alloc::AllocError;

fn tell_refusal(refusal: Refusal, line: &mut Line) -> Result<(), AllocError> {
    line.refused(refusal.number)?;
    line.word(refusal.place)?;
    line.word(refusal.pass)
}

pub(crate) fn read_case(case: &mut Case<'_>) -> Result<(), CaseError> {
    let bytes = case.last_bytes()?;
    match read(&bytes) {
        Ok(definition) => {
            case.line.word("ok")?;
            case.line.word(definition.keyword())?;
        }
        Err(fault) => tell_refusal(fault.refusal(), &mut case.line)?,
    }
    Ok(())
}
