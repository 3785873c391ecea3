// Which call a line asks for.
use crate::case::Case;
use crate::error::CaseError;
use crate::host::host_case;
use crate::memory::memory_case;
use crate::read::read_case;
use crate::record::record_case;
use crate::rule::{load_case, store_case};
use crate::word::word_case;
use std::alloc::{AllocError, Global};

// Each call takes all the words of its line. The match is the table of the calls: one of functions would say no more.
fn perform(case: &mut Case<'_>) -> Result<(), CaseError> {
    match case.request.word()? {
        "read" => read_case(case),
        "record" => record_case(case),
        "load" => load_case(case),
        "store" => store_case(case),
        "word" => word_case(case),
        "memory" => memory_case(case),
        "host" => host_case(case),
        _ => Err(CaseError::Unreadable),
    }
}

// The line of answer.
pub(crate) fn answer(heap: Global, asked: &str) -> Result<String, AllocError> {
    let mut case = Case::new(heap, asked);
    // one of the two errors is an answer
    match perform(&mut case) {
        Ok(()) => Ok(case.line.text),
        Err(CaseError::Unreadable) => format!(in heap; "? {asked}"),
        Err(CaseError::OutOfMemory) => Err(AllocError),
    }
}
