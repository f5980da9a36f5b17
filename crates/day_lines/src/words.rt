// The words of a text: its parts between blanks, the empty ones left out. The chain stands in both functions: one that returned it would have to
// promise what it yields, in more words than the chain has.
ghost use Rattle.std.specs.Prelude.{◌≡◌, length};
ghost use Rattle.day_lines.specs.Words.{is_blank, words, word_at};

fn is_blank(byte: u8) -> bool
    ensures { result ≡ is_blank byte }
{
    matches!(byte, b' ' | b'\t' | b'\r')
}

// How many words there are.
pub fn count(text: &[u8]) -> usize
    ensures { result ≡ length (words text.now) }
{
    text.split(|byte| is_blank(*byte))
        .filter(|part| !part.is_empty())
        .count()
}

// The word of an index, from 0; no byte where there is none.
pub fn word(text: &[u8], index: usize) -> &[u8]
    ensures { result.now ≡ word_at text.now index }
{
    text.split(|byte| is_blank(*byte))
        .filter(|part| !part.is_empty())
        .nth(index)
        .unwrap_or(&[])
}
