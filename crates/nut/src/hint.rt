// What a form that fits no shape should have looked like.
use reader::keyword::Keyword;
use scanner::scanner::Scanner;
use scanner::token::Token;

// The shape that goes with the head of a form: a hint of this program, not the keyword's own word, and so no `Display`.
fn shape_words(head: Keyword) -> &'static str {
    match head {
        Keyword::Def => "a function is (def name (formals) (locals) e)",
        Keyword::Let => "a global is (let name)",
        Keyword::Enum => "an enumeration is (enum number name name*)",
        Keyword::If => "it is (if e e e)",
        Keyword::While => "it is (while e e)",
        Keyword::Do => "it is (do e*)",
        Keyword::Set => "it is (set name e)",
        Keyword::Vec => "it is (vec name e)",
        Keyword::Setv => "it is (setv name e e)",
        Keyword::New => "it is (new e)",
        Keyword::Sys => "it is (sys n e), n a number from 1 to 3",
        Keyword::Add | Keyword::Sub | Keyword::Eq | Keyword::Lt | Keyword::Gt => {
            "an operator takes two expressions"
        }
    }
}

const NO_DEFINITION: &str = "a definition begins with def, let or enum";

// The same where a definition should stand.
fn definition_words(head: Keyword) -> &'static str {
    match head {
        Keyword::Def | Keyword::Let | Keyword::Enum => shape_words(head),
        _ => NO_DEFINITION,
    }
}

// Of the form or list whose opening parenthesis is the first token of `text`.
pub(crate) fn hint(text: &[u8], outermost: bool) -> &'static str {
    let mut scanner = Scanner::new(text);
    // the parenthesis, known before
    let _ = scanner.token();
    let Some(Token::Name(head)) = scanner.token() else {
        return "a form begins with a name, and formals and locals are names alone";
    };
    match Keyword::of(head.bytes) {
        Some(Keyword::Def | Keyword::Let | Keyword::Enum) if !outermost => {
            "definitions do not stand inside of others"
        }
        Some(keyword) if outermost => definition_words(keyword),
        Some(keyword) => shape_words(keyword),
        None if outermost => NO_DEFINITION,
        None => "formals and locals are names alone, 15 formals and 64 of both at most",
    }
}
