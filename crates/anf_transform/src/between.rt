// The XOR over subsets between words, for the flags from the seventh on: flag 6 + j tells the words apart whose places differ in bit j.
// It rests on the definitions of one flag's turn (specs, inner).
ghost use Rattle.std.specs.Prelude.{Bool, ◌≡◌, ℕ, ◌+◌, ◌*◌, ◌^◌, ◌<◌, ◌≤◌, length};
ghost use Rattle.anf_transform.specs.inner.Change.{Changed};
ghost use Rattle.anf_transform.specs.inner.Flag.{pair_xor, joined, lowest, Holds};

// Each of the last `step` words takes in the word `step` places before it. That one has an index, because of the words that `iter_mut` lends to a
// `zip` a proof knows no value afterwards.
fn join_halves(words: &mut [u64], step: usize)
    requires { length words.old ≡ 2 * step }
    ensures { Changed step (2 * step) (pair_xor step words.old) words.old words.new }
{
    let (low, high) = words.split_at_mut(step);
    for (i, word) in high.iter_mut().enumerate() {
        *word ^= low[i];
    }
}

// One flag, 6 + j, of words whose number is a power of two above 2 ^ j. The pairs of halves are counted, because of the words that
// `chunks_exact_mut` lends a proof knows no value afterwards.
fn along_flag(words: &mut [u64], j: usize, count: usize)
    requires { (j < count) × (count ≤ 10) × (length words.old ≡ 2 ^ count) }
    ensures { Changed 0 (length words.old) (joined j words.old) words.old words.new }
{
    let step = 1 << j;
    for i in 0..1 << (count - 1 - j) {
        let base = 2 * step * i;
        join_halves(&mut words[base..base + 2 * step], step);
    }
}

// All flags from the seventh on, `count` of them, once the words hold the XOR over subsets for the six lowest flags.
pub fn between(words: &mut [u64], count: usize)
    requires { (count ≤ 10) × (length words.old ≡ 2 ^ count) }
    ensures { (length words.new ≡ length words.old)
        × ((f : ℕ → Bool) → Holds (lowest 6 f) words.old → Holds (lowest (6 + count) f) words.new) }
{
    for j in 0..count {
        along_flag(words, j, count);
    }
}
