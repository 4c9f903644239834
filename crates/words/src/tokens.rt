//! A line as tokens: what each word says.
ghost use Rattle.std.specs.Prelude.{◌≡◌};
ghost use Rattle.words.specs.Tokens.{line_tokens, token_of};

use crate::lexis::next_word;
use crate::names::{Name, Verb, name_of, verb_of};
use crate::numbers::{micros, number};
use arrayvec::ArrayVec;
use units::Micros;

/// What a word says.
#[derive(Clone, Copy, Debug, Default, PartialEq, Eq)]
pub(crate) enum Token {
    Number(u64),
    Time(Micros),
    Verb(Verb),
    Name(Name),
    /// Nothing that any line has.
    #[default]
    Other,
}

/// More words than any right line has.
pub(crate) const MOST: usize = 32;

pub(crate) type Tokens = ArrayVec<Token, MOST>;

#[tactic(auto, unfolding(crate::specs::Tokens::token_of))]
fn token_of(word: &[u8]) -> Token
    ensures { result ≡ token_of word.now }
{
    if let Some(number) = number(word) {
        return Token::Number(number);
    }
    if let Some(time) = micros(word) {
        return Token::Time(time);
    }
    if let Some(verb) = verb_of(word) {
        return Token::Verb(verb);
    }
    if let Some(name) = name_of(word) {
        return Token::Name(name);
    }
    Token::Other
}

/// The tokens of a line, up to the first comment. Of more words than any right line has, the first.
#[tactic(auto, using(crate::proofs::LexisLaws::goes_on, crate::proofs::LexisLaws::ends), unfolding(crate::specs::Tokens::tokens_in))]
pub(crate) fn line_tokens(line: &[u8]) -> Tokens
    ensures { result.items ≡ line_tokens line.now }
{
    let mut tokens = Tokens::new();
    let mut rest = line;
    while !tokens.is_full() {
        let (word, after) = next_word(rest);
        if word.is_empty() {
            break;
        }
        tokens.push(token_of(word));
        rest = after;
    }
    tokens
}
