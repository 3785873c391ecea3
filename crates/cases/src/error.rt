// Why a case has no answer.
use hex::FromHexError;
use std::alloc::{AllocError, AllocFailed};
use std::num::ParseIntError;

#[derive(Clone, Copy, Debug, PartialEq, Eq)]
pub(crate) enum CaseError {
    // the words of the line cannot be read
    Unreadable,
    OutOfMemory,
}

impl From<AllocError> for CaseError {
    fn from(_error: AllocError) -> CaseError {
        CaseError::OutOfMemory
    }
}

impl<T: Drop> From<AllocFailed<T>> for CaseError {
    fn from(_error: AllocFailed<T>) -> CaseError {
        CaseError::OutOfMemory
    }
}

impl From<ParseIntError> for CaseError {
    fn from(_error: ParseIntError) -> CaseError {
        CaseError::Unreadable
    }
}

impl From<FromHexError> for CaseError {
    fn from(error: FromHexError) -> CaseError {
        match error {
            FromHexError::OutOfMemory => CaseError::OutOfMemory,
            _ => CaseError::Unreadable,
        }
    }
}
