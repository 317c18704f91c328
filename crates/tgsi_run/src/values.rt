// Words as bytes.
ghost use Rattle.std.specs.Prelude.{◌≡◌, ◌/◌, ◌≤◌, min, length};
ghost use Rattle.std.proofs.lemmas.List.Edits.{sets};
ghost use Rattle.io.specs.Counts.{IsPrefixLen};
ghost use Rattle.tgsi_run.specs.Values.{words_in};

// Puts the little-endian words of some bytes at the start of `words`, as many as there are and as fit, and answers how many.
pub fn put_words(bytes: &[u8], words: &mut [u32]) -> usize
    ensures number { result ≡ min (length bytes.now / 4) (length words.old) }
    ensures content { words.new ≡ sets words.old 0 (words_in bytes.now 0 result) }
    ensures within { IsPrefixLen result words.new }
{
    let n = (bytes.len() / 4).min(words.len());
    for i in 0..n {
        words[i] = readers::u32_at(bytes, 4 * i);
    }
    n
}
