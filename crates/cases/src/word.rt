// `word HEX8`: one word of S-code.
use crate::case::Case;
use crate::error::CaseError;
use crate::number::HexWord;
use scode::code::decode;
use scode::words::split;

pub(crate) fn word_case(case: &mut Case<'_>) -> Result<(), CaseError> {
    let HexWord(word) = case.request.last_word()?.parse()?;
    let fields = split(word);
    case.line.word(fields.opcode)?;
    case.line.word(fields.argument)?;
    Ok(case.line.word(decode(word).mnemonic())?)
}
