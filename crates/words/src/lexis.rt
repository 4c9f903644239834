//! Lines and words (docs/WORDS.md, The grammar).
ghost use Rattle.std.specs.Prelude.{◌≡◌, ◌≤◌, length};
ghost use Rattle.std.specs.List.{prefix_len};
ghost use Rattle.words.specs.Lexis.{after_line, after_word, column_of, first_line, from_word, is_inner, is_other, trimmed, word};

/// What a word is made of.
fn is_inner(byte: u8) -> bool
    ensures { result ≡ is_inner byte }
{
    !(byte.is_ascii_whitespace() || byte == b'#')
}

/// From the next word on.
pub(crate) fn skip_blanks(text: &[u8]) -> &[u8]
    ensures value { result.now ≡ trimmed text.now }
    ensures within { length result.now ≤ length text.now }
{
    text.trim_ascii_start()
}

fn word_length(text: &[u8]) -> usize
    ensures value { result ≡ prefix_len is_inner text.now }
    ensures upper_bound { result ≤ length text.now }
{
    let mut at = 0;
    while at < text.len() && is_inner(text[at]) {
        at += 1;
    }
    at
}

/// How many bytes stand before the first such byte; all of them where there is none.
pub(crate) fn length_before(text: &[u8], stop: u8) -> usize
    ensures value { result ≡ prefix_len (is_other stop) text.now }
    ensures upper_bound { result ≤ length text.now }
{
    let mut at = 0;
    while at < text.len() && text[at] != stop {
        at += 1;
    }
    at
}

/// The next word, empty where there is none, and what follows it.
pub(crate) fn next_word(text: &[u8]) -> (&[u8], &[u8])
    ensures first { result.0.now ≡ word text.now }
    ensures rest { result.1.now ≡ after_word text.now }
    ensures within { length result.1.now ≤ length text.now }
{
    let text = skip_blanks(text);
    text.split_at(word_length(text))
}

/// The first line, and what stands from its line feed on.
pub(crate) fn next_line(text: &[u8]) -> (&[u8], &[u8])
    ensures first { result.0.now ≡ first_line text.now }
    ensures rest { result.1.now ≡ after_line text.now }
    ensures within { length result.1.now ≤ length text.now }
{
    text.split_at(length_before(text, b'\n'))
}

/// From a word on, the first being word 0.
#[tactic(auto, using(crate::proofs::LexisLaws::next_from), unfolding(crate::specs::Lexis::from_word))]
fn from_word(line: &[u8], word: usize) -> &[u8]
    ensures value { result.now ≡ from_word word line.now }
    ensures within { length result.now ≤ length line.now }
{
    let mut rest = line;
    for _ in 0..word {
        (_, rest) = next_word(rest);
    }
    skip_blanks(rest)
}

/// The column of a line's word, counted from 1; past the last word, of the comment or of the line's end.
pub(crate) fn column(line: &[u8], word: usize) -> usize
    ensures { result ≡ column_of line.now word }
{
    line.len() - from_word(line, word).len() + 1
}
