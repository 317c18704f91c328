// Words of lent slices: past their end a word reads 0, and none is written.
ghost use Rattle.std.specs.Prelude.{◌≡◌, get_or, set};

// A word of lent words, 0 past their end.
pub fn word_at(words: &[u32], at: usize) -> u32
    ensures { result ≡ get_or words.now at 0 }
{
    words.get(at).copied().unwrap_or(0)
}

// Sets a word of lent words; past their end there is none. (Of what is written through `get_mut` of a slice the kit knows no element.)
pub fn set_word(words: &mut [u32], at: usize, word: u32)
    ensures { words.new ≡ set words.old at word }
{
    if at < words.len() {
        words[at] = word;
    }
}
