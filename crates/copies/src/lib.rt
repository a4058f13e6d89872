// A run of the picture's words, each stored three times side by side in three rows of an output: blocks that no tag alters.
#![tactic(auto)]

ghost use Rattle.std.specs.Prelude.{◌≡◌, ◌+◌, ◌*◌, ◌≤◌, length, get_or};
ghost use Rattle.picture.specs.Fill.{put};
ghost use Rattle.block.specs.Copies.{thrice, thrice_below};

// Each word three times, from the output's first on.
fn copy_words(words: &[u32], out: &mut [u32])
    requires { length words.now * 3 ≤ length out.old }
    ensures { out.new ≡ put 0 (thrice (length words.now) (λ j. get_or words.now j 0)) out.old }
{
    for (i, word) in words.iter().enumerate() {
        out[3 * i..3 * i + 3].fill(*word);
    }
}

// The same, four words at a time, and then the rest. Four are read before the first is stored: nothing tells the compiler that the two
// buffers do not meet, and so it can store them in vectors. Without the fours a run of 5 to 16 words takes 1.7 times as long.
fn copy_row(words: &[u32], out: &mut [u32])
    requires { length words.now * 3 ≤ length out.old }
    ensures { out.new ≡ put 0 (thrice (length words.now) (λ j. get_or words.now j 0)) out.old }
{
    let (fours, rest) = words.as_chunks::<4>();
    for (i, four) in fours.iter().enumerate() {
        let [a, b, c, d] = *four;
        copy_words(&[a, b, c, d], &mut out[12 * i..]);
    }
    copy_words(rest, &mut out[12 * fours.len()..]);
}

// The same in three rows of an output of rows of `ow` words, one below the other.
pub fn copy_rows(words: &[u32], out: &mut [u32], ow: usize)
    requires { 2 * ow + length words.now * 3 ≤ length out.old }
    ensures { out.new ≡ thrice_below ow 0 (thrice (length words.now) (λ j. get_or words.now j 0)) out.old }
{
    copy_row(words, out);
    copy_row(words, &mut out[ow..]);
    copy_row(words, &mut out[2 * ow..]);
}
