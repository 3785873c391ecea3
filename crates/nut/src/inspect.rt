// `nut inspect RULE PUSH`: a stored rule and a push record, read, shown, and the rule stored again.
use crate::listing::{print_facts, print_rule};
use crate::refusal::Fault;
use anyhow::{anyhow, ensure};
use live_host::record::PushRecord;
use runtime::host::Facts;
use std::{fs, io};
use stored::load::load;
use stored::rule::{BorrowedRule, MOST_WORDS, RuleHeader};
use stored::store::store;

fn read_file(rt: &HostRuntime, what: &str, path: &str) -> io::Result<Vec<u8>> {
    print!(rt; "reading the {what} {path}: ")?;
    let bytes = fs::read(rt, path).try_map_err(|error| -> io::Result<io::Error> {
        println!(rt; "failed")?;
        Ok(error)
    })?;
    let length = bytes.len();
    println!(rt; "{length} bytes")?;
    Ok(bytes)
}

// A refusal is told with its number and why; what it means for the command is the error.
fn accepted<T, F: Fault>(
    rt: &HostRuntime,
    answer: Result<T, F>,
    meaning: &'static str,
) -> anyhow::Result<T> {
    answer.try_map_err(|fault| -> anyhow::Result<anyhow::Error> {
        let number = fault.number();
        println!(rt; "refused with {number}: {fault}")?;
        Ok(anyhow!(meaning))
    })
}

// The rule's words, its header told.
fn load_rule(rt: &HostRuntime, bytes: &[u8], words: &mut [u32]) -> anyhow::Result<RuleHeader> {
    print!(rt; "loading the rule: ")?;
    let header = accepted(rt, load(bytes, words), "the rule is refused")?;
    let RuleHeader {
        words: count,
        globals,
        entry,
    } = header;
    println!(rt; "words {count}, globals {globals}, entry at word {entry}")?;
    Ok(header)
}

fn show_push(rt: &HostRuntime, bytes: &[u8]) -> anyhow::Result<()> {
    print!(rt; "reading the facts of the push: ")?;
    let record = accepted(rt, PushRecord::read(bytes), "the push record is refused")?;
    let count = record.count();
    println!(rt; "{count} facts")?;
    print_facts(rt, record)
}

// Stores the rule, and compares the bytes with those that it was loaded from.
fn store_again(
    rt: &HostRuntime,
    words: &[u32],
    header: RuleHeader,
    bytes: &[u8],
) -> anyhow::Result<()> {
    print!(rt; "storing the rule again: ")?;
    let mut out = vec![in rt.alloc(); 0u8; bytes.len()]?;
    let rule = BorrowedRule {
        words,
        globals: header.globals,
        entry: header.entry,
    };
    let length = accepted(rt, store(&rule, &mut out), "the rule cannot be stored")?;
    ensure!(
        out.as_slice() == bytes,
        "the stored bytes differ from those that were read"
    );
    println!(rt; "{length} bytes, equal to those that were read")?;
    Ok(())
}

pub(crate) fn inspect(rt: &HostRuntime, rule: &str, push: &str) -> anyhow::Result<()> {
    let bytes = read_file(rt, "rule", rule)?;
    let mut words = vec![in rt.alloc(); 0u32; MOST_WORDS]?;
    let header = load_rule(rt, &bytes, &mut words)?;
    words.truncate(header.words);
    print_rule(rt, &words, header.entry)?;
    let record = read_file(rt, "push record", push)?;
    show_push(rt, &record)?;
    store_again(rt, &words, header, &bytes)
}
