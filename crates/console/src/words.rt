// Blanks and words of a line.
ghost use Rattle.std.specs.Prelude.{◌≡◌, ◌<◌, ◌≤◌, [], ◌∷◌, length, drop, IfSome, MatchOption};
ghost use Rattle.std.specs.List.{prefix_len};
ghost use Rattle.console.specs.Words.{after_blanks, after_word, first_word, in_word, is_blank, no_blanks};

// The first byte of a line that asks for nothing.
pub(crate) const REMARK: u8 = b'#';

pub(crate) fn is_blank(byte: u8) -> bool
    ensures { result ≡ is_blank byte }
{
    matches!(byte, b' ' | b'\t' | b'\r')
}

// How many blanks a line begins with.
pub(crate) fn count_blanks(line: &[u8]) -> usize
    ensures count { result ≡ prefix_len is_blank line.now }
    ensures within { result ≤ length line.now }
{
    line.iter().take_while(|byte| is_blank(**byte)).count()
}

// How long the word is that a line begins with.
pub(crate) fn count_letters(line: &[u8]) -> usize
    ensures count { result ≡ prefix_len in_word line.now }
    ensures within { result ≤ length line.now }
{
    line.iter().take_while(|byte| !is_blank(**byte)).count()
}

// The line from its first byte that is no blank.
pub(crate) fn skip_blanks(line: &[u8]) -> &[u8]
    ensures { result.now ≡ after_blanks line.now }
{
    &line[count_blanks(line)..]
}

// The first byte from there on that is no blank, and where the text behind it begins.
pub(crate) fn next_byte(text: &[u8], from: usize) -> Option<(u8, usize)>
    requires { from ≤ length text.now }
    ensures next { MatchOption result (no_blanks (drop from text.now) ≡ []) (λ p. no_blanks (drop from text.now) ≡ p.0 ∷ no_blanks (drop p.1 text.now)) }
    ensures behind { IfSome result (λ p. from < p.1) }
    ensures within { IfSome result (λ p. p.1 ≤ length text.now) }
{
    let at = from + count_blanks(&text[from..]);
    if at < text.len() {
        Some((text[at], at + 1))
    } else {
        None
    }
}

// The line before and from its first blank.
pub(crate) fn split_word(line: &[u8]) -> (&[u8], &[u8])
    ensures word { result.0.now ≡ first_word line.now }
    ensures rest { result.1.now ≡ after_word line.now }
{
    line.split_at(count_letters(line))
}
