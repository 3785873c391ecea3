// `memory words|packed LENGTH ACTION..`: reads and writes, and the buffer after them.
use crate::case::Case;
use crate::error::CaseError;
use crate::number::Room;
use memories::packed::Packed;
use memories::words::Words;
use runtime::memory::Memory;

fn perform<M: Memory>(memory: &mut M, case: &mut Case<'_>) -> Result<(), CaseError> {
    case.line.word("cells")?;
    case.line.word(memory.len())?;
    // no `for`: an action takes the words behind its first from the same iterator
    while let Some(action) = case.request.words.next() {
        // the match is the table of the actions, each with words of its own
        match action {
            "r" => case.line.found(memory.read(case.request.parse()?))?,
            "w" => {
                let place = case.request.parse()?;
                let value = case.request.parse()?;
                case.line.done(memory.write(place, value))?;
            }
            _ => return Err(CaseError::Unreadable),
        }
    }
    Ok(())
}

pub(crate) fn memory_case(case: &mut Case<'_>) -> Result<(), CaseError> {
    let kind = case.request.word()?;
    let Room(length) = case.request.parse()?;
    // the match is the table of the memories, each with a buffer of its own
    match kind {
        "words" => {
            let mut cells = vec![in case.heap; 7i32; length]?;
            perform(&mut Words { buffer: &mut cells }, case)?;
            case.line.list(cells.iter())?;
        }
        "packed" => {
            let mut bytes = vec![in case.heap; 7u8; length]?;
            perform(&mut Packed { buffer: &mut bytes }, case)?;
            case.tell_bytes(&bytes)?;
        }
        _ => return Err(CaseError::Unreadable),
    }
    Ok(())
}
