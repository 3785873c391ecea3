// A rule word by word, and a push's facts.
use crate::letter::letter;
use live_host::record::PushRecord;
use scode::code::decode;
use scode::instruction::Instruction;
use scode::words::split;

// One word: its address, its bits, the mnemonic and the argument; the entry is marked.
fn print_word(rt: &HostRuntime, address: usize, word: u32, entry: usize) -> anyhow::Result<()> {
    let mark = if address == entry { '>' } else { ' ' };
    let argument = split(word).argument;
    let instruction = decode(word);
    let name = instruction.mnemonic();
    match instruction {
        Instruction::Fun { formals, variables } => println!(rt;
            "{mark} {address:>5}  {word:08x}  fun   {formals} of {variables}"
        )?,
        Instruction::New
        | Instruction::Add
        | Instruction::Sub
        | Instruction::Eq
        | Instruction::Lt
        | Instruction::Gt
        | Instruction::Pop => println!(rt; "{mark} {address:>5}  {word:08x}  {name}")?,
        _ => println!(rt; "{mark} {address:>5}  {word:08x}  {name:<4}  {argument}")?,
    }
    Ok(())
}

pub(crate) fn print_rule(rt: &HostRuntime, words: &[u32], entry: usize) -> anyhow::Result<()> {
    for (address, word) in words.iter().enumerate() {
        print_word(rt, address, *word, entry)?;
    }
    if entry >= words.len() {
        println!(rt; "  the entry address is no word of the rule")?;
    }
    Ok(())
}

// The facts one by one, and those that are letter codes as text.
pub(crate) fn print_facts(rt: &HostRuntime, record: PushRecord<'_>) -> anyhow::Result<()> {
    let mut text = String::new(rt.alloc());
    for (k, fact) in record.facts().enumerate() {
        let shown = u8::try_from(fact).ok().and_then(letter).unwrap_or('.');
        println!(rt; "  fact {k:>2}  {shown}  {fact}")?;
        text.push(shown)?;
    }
    println!(rt; "  as text  {text}  (a dot for what is no letter code)")?;
    Ok(())
}
