// BIG.MixColumns (section 3.3) and its way back: each column of four words, at each of its sixteen byte positions.
ghost use Rattle.std.specs.Prelude.{◌≡◌, ℕ, List, length};
ghost use Rattle.aes_round.specs.Mixing.{backward, forward, mix_column};
ghost use Rattle.aes_round.specs.Rounds.{mix_columns};
ghost use Rattle.echo.specs.Square.{big_mix_columns, big_mix_columns_back, mix_words};

// Four words, one after the other: at each byte position the column of four through `step`, which multiplies it by a matrix.
fn mix_words<F: Fn([u8; 4]) -> [u8; 4]>(c: &mut [u8], step: &F)
    requires callable { F.IsAlwaysCallable step.now }
    requires c_len { length c.old ≡ 64 }
    ensures { (m : List ℕ) → ((x y : List ℕ) → F.post step.now x y → y ≡ mix_column m x) → c.new ≡ mix_words m c.old }
{
    for b in 0..16 {
        let [w, x, y, z] = step([c[b], c[16 + b], c[32 + b], c[48 + b]]);
        c[b] = w;
        c[16 + b] = x;
        c[32 + b] = y;
        c[48 + b] = z;
    }
}

// The four columns of the square, by places: a proof knows nothing of what is written through the parts that `chunks_exact_mut` lends.
fn each_column<F: Fn([u8; 4]) -> [u8; 4]>(s: &mut [u8], step: F)
    requires callable { F.IsAlwaysCallable step }
    requires s_len { length s.old ≡ 256 }
    ensures { (m : List ℕ) → ((x y : List ℕ) → F.post step x y → y ≡ mix_column m x) → s.new ≡ mix_columns 16 m s.old }
{
    for j in 0..4 {
        let at = 64 * j;
        let end = at + 64;
        mix_words(&mut s[at..end], &step);
    }
}

pub(crate) fn mix_columns(s: &mut [u8])
    requires { length s.old ≡ 256 }
    ensures { s.new ≡ big_mix_columns s.old }
{
    each_column(
        s,
        |column: [u8; 4]|
            ensures { result ≡ mix_column forward column }
        { aes_round::mix(column) },
    );
}

pub(crate) fn mix_columns_back(s: &mut [u8])
    requires { length s.old ≡ 256 }
    ensures { s.new ≡ big_mix_columns_back s.old }
{
    each_column(
        s,
        |column: [u8; 4]|
            ensures { result ≡ mix_column backward column }
        { aes_round::mix_back(column) },
    );
}
