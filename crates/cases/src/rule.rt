// `load ROOM HEX` and `store ROOM GLOBALS ENTRY WORD..`: the stored rule.
use crate::case::Case;
use crate::error::CaseError;
use crate::number::{HexWord, Room};
use stored::load::load;
use stored::rule::BorrowedRule;
use stored::store::store;

pub(crate) fn load_case(case: &mut Case<'_>) -> Result<(), CaseError> {
    let Room(room) = case.request.parse()?;
    let bytes = case.last_bytes()?;
    let mut words = vec![in case.heap; 0u32; room]?;
    match load(&bytes, &mut words) {
        Ok(header) => {
            case.line.word("rule")?;
            case.line.word(header.globals)?;
            case.line.word(header.entry)?;
            let stored = words.iter().take(header.words).map(|word| HexWord(*word));
            case.line.list(stored)?;
        }
        Err(fault) => case.line.refused(fault.number())?,
    }
    Ok(())
}

// The words that are left, `-` for none.
fn words_of(case: &mut Case<'_>) -> Result<Vec<u32>, CaseError> {
    let texts: Vec<&str> = case.request.words.by_ref().collect(case.heap)?;
    match texts.as_slice() {
        ["-"] => Ok(Vec::new(case.heap)),
        texts => texts
            .iter()
            .map(|text| -> Result<u32, CaseError> { Ok(text.parse::<HexWord>()?.0) })
            .try_collect(case.heap),
    }
}

pub(crate) fn store_case(case: &mut Case<'_>) -> Result<(), CaseError> {
    let Room(room) = case.request.parse()?;
    let globals = case.request.parse()?;
    let entry = case.request.parse()?;
    let words = words_of(case)?;
    let rule = BorrowedRule {
        words: &words,
        globals,
        entry,
    };
    let mut bytes = vec![in case.heap; 0u8; room]?;
    match store(&rule, &mut bytes) {
        Ok(length) => {
            bytes.truncate(length);
            case.line.word("bytes")?;
            case.tell_bytes(&bytes)?;
        }
        Err(fault) => case.line.refused(fault.number())?,
    }
    Ok(())
}
