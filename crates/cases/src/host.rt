// `host live CAPACITY HEX ACTION..` and `host rehearsal CAPACITY FACT.. : ACTION..`: a host's answers, and its report.
use crate::case::Case;
use crate::error::CaseError;
use crate::number::Room;
use live_host::live::LiveHost;
use rehearsal_host::rehearsal::RehearsalHost;
use runtime::host::PushHost;
use runtime::system::write_number;

fn perform<H: PushHost>(host: &mut H, case: &mut Case<'_>) -> Result<(), CaseError> {
    // no `for`: an action takes the words behind its first from the same iterator
    while let Some(action) = case.request.words.next() {
        // the match is the table of the actions, each with words of its own
        match action {
            "b" => case.line.done(host.put(case.request.parse()?))?,
            "n" => case.line.done(write_number(host, case.request.parse()?))?,
            "f" => case.line.found(host.fact(case.request.parse()?))?,
            "s" => case.line.word(host.space())?,
            "c" => case.line.word(host.count())?,
            _ => return Err(CaseError::Unreadable),
        }
    }
    Ok(())
}

fn live_case(capacity: usize, case: &mut Case<'_>) -> Result<(), CaseError> {
    let word = case.request.word()?;
    let record = case.bytes_of(word)?;
    let mut buffer = vec![in case.heap; 0u8; capacity]?;
    let mut host = LiveHost::new(&record, &mut buffer, 0);
    perform(&mut host, case)?;
    let length = host.report_len();
    buffer.truncate(length);
    Ok(case.tell_bytes(&buffer)?)
}

// The facts before the colon, `-` for none.
fn facts_of(case: &mut Case<'_>) -> Result<Vec<i32>, CaseError> {
    let mut facts = Vec::new(case.heap);
    // a `for`: it is left at the colon, and a line without one cannot be read
    for word in case.request.words.by_ref() {
        match word {
            ":" => return Ok(facts),
            "-" => {}
            number => facts.push(number.parse()?)?,
        }
    }
    Err(CaseError::Unreadable)
}

fn rehearsal_case(capacity: usize, case: &mut Case<'_>) -> Result<(), CaseError> {
    let facts = facts_of(case)?;
    let mut host = RehearsalHost::new(&facts, capacity);
    perform(&mut host, case)?;
    Ok(case.tell_bytes(host.report())?)
}

pub(crate) fn host_case(case: &mut Case<'_>) -> Result<(), CaseError> {
    let kind = case.request.word()?;
    let Room(capacity) = case.request.parse()?;
    // the match is the table of the hosts, each with words of its own
    match kind {
        "live" => live_case(capacity, case),
        "rehearsal" => rehearsal_case(capacity, case),
        _ => Err(CaseError::Unreadable),
    }
}
