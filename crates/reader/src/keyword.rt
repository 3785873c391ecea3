// The reserved words and the operators.
ghost use Rattle.std.specs.Prelude.{◌≡◌};
ghost use Rattle.reader.specs.Keywords.{keyword, KeywordsReadBack};

use std::fmt;

#[derive(Clone, Copy)]
pub enum Keyword {
    Def,
    Let,
    Enum,
    If,
    While,
    Do,
    Set,
    Vec,
    Setv,
    New,
    Sys,
    Add,
    Sub,
    Eq,
    Lt,
    Gt,
}

impl Keyword {
    // None if the word is neither: that is no error, and so no `TryFrom`.
    #[tactic(auto, unfolding(crate::specs::Keywords::keyword), using(crate::proofs::Words::keywords_read_back))]
    pub fn of(word: &[u8]) -> Option<Keyword>
        ensures answer { result ≡ keyword word.now }
        ensures own_words { KeywordsReadBack }
    {
        match word {
            b"def" => Some(Keyword::Def),
            b"let" => Some(Keyword::Let),
            b"enum" => Some(Keyword::Enum),
            b"if" => Some(Keyword::If),
            b"while" => Some(Keyword::While),
            b"do" => Some(Keyword::Do),
            b"set" => Some(Keyword::Set),
            b"vec" => Some(Keyword::Vec),
            b"setv" => Some(Keyword::Setv),
            b"new" => Some(Keyword::New),
            b"sys" => Some(Keyword::Sys),
            b"+" => Some(Keyword::Add),
            b"-" => Some(Keyword::Sub),
            b"=" => Some(Keyword::Eq),
            b"<" => Some(Keyword::Lt),
            b">" => Some(Keyword::Gt),
            _ => None,
        }
    }
}

// Its own word.
impl fmt::Display for Keyword {
    ghost use Rattle.std.specs.Prelude.{Some};
    ghost use Rattle.reader.specs.Keywords.{keyword_word};

    ghost output = { λ k. Some (keyword_word k) };

    fn fmt<W: fmt::Write>(&self, f: &mut fmt::Formatter<W>) -> fmt::Result {
        f.write_str(match self {
            Keyword::Def => "def",
            Keyword::Let => "let",
            Keyword::Enum => "enum",
            Keyword::If => "if",
            Keyword::While => "while",
            Keyword::Do => "do",
            Keyword::Set => "set",
            Keyword::Vec => "vec",
            Keyword::Setv => "setv",
            Keyword::New => "new",
            Keyword::Sys => "sys",
            Keyword::Add => "+",
            Keyword::Sub => "-",
            Keyword::Eq => "=",
            Keyword::Lt => "<",
            Keyword::Gt => ">",
        })
    }
}
