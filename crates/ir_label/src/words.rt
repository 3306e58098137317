// The word list of the label call (paper 01): where a word starts and ends, and whether there are five.
// That a place is inside the words is a clause of one step: a type for it would be turned back at once.
ghost use Rattle.std.specs.Prelude.{◌≡◌, ◌+◌, ◌≤◌, ◌<◌, length, drop};
ghost use Rattle.ir_types.specs.Label.{words_of, good_words, word_at};
ghost use Rattle.ir_label.specs.Lines.{line_length};

// How many words the list has.
const WORDS: usize = 5;

fn line_length(line: &[u8]) -> usize
    ensures { result ≡ line_length line.now }
{
    line.iter().position(|b| *b == b'\n').unwrap_or(line.len())
}

pub fn line_end(words: &[u8], at: usize) -> usize
    requires { at ≤ length words.now }
    ensures { result ≡ at + line_length (drop at words.now) }
{
    at + line_length(&words[at..])
}

// Each byte is looked at once.
pub fn five_words(words: &[u8]) -> bool
    ensures { result ≡ good_words words.now }
{
    let mut at = 0;
    for _ in 0..WORDS {
        let end = line_end(words, at);
        if words.len() <= end {
            return false;
        }
        at = end + 1;
    }
    words.len() <= at
}

// `n`: the number of a word, not a length of the list.
pub fn word_start(words: &[u8], n: usize) -> usize
    requires { n < length (words_of words.now) }
    ensures { result ≡ word_at n (words_of words.now) }
{
    let mut at = 0;
    for _ in 0..n {
        at = line_end(words, at) + 1;
    }
    at
}
