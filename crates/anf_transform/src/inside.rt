// The XOR over subsets inside each word, where a word holds the coefficients of six flags. Each of the six lines adds one flag: the coefficients
// without it, which the mask picks, are XORed into those with it. It rests on the definitions of one flag's turn (specs, inner).
ghost use Rattle.std.specs.Prelude.{◌≡◌, length, get_or};
ghost use Rattle.anf_transform.specs.inner.Change.{Changed};
ghost use Rattle.anf_transform.specs.inner.Flag.{in_word};

// The XOR over subsets of the coefficients in one word.
#[inline]
pub fn transform_word(word: u64) -> u64
    ensures { result ≡ in_word word }
{
    let a = word ^ ((word & 0x5555_5555_5555_5555) << 1);
    let b = a ^ ((a & 0x3333_3333_3333_3333) << 2);
    let c = b ^ ((b & 0x0f0f_0f0f_0f0f_0f0f) << 4);
    let d = c ^ ((c & 0x00ff_00ff_00ff_00ff) << 8);
    let e = d ^ ((d & 0x0000_ffff_0000_ffff) << 16);
    e ^ ((e & 0x0000_0000_ffff_ffff) << 32)
}

// Each word by itself.
pub fn inside(words: &mut [u64])
    ensures { Changed 0 (length words.old) (λ i. in_word (get_or words.old i 0))
        words.old words.new }
{
    for word in words.iter_mut() {
        *word = transform_word(*word);
    }
}
