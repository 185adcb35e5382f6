// The internal counter (section 3.1), over 128 bits.
ghost use Rattle.std.specs.Prelude.{◌≡◌, ◌+◌, ◌%◌, ◌^◌};
ghost use Rattle.echo.specs.Numbers.{halves};

// The lower and the upper half.
#[derive(Clone, Copy)]
pub(crate) struct Counter {
    pub low: u64,
    pub high: u64,
}

// So many words further on, modulo 2^128.
pub(crate) fn count_on(counter: Counter, words: u64) -> Counter
    ensures { halves result.low result.high ≡ (halves counter.low counter.high + words) % 2 ^ 128 }
{
    let low = counter.low.wrapping_add(words);
    // A sum that went over is below what was added to it, and no other is.
    if low < words {
        let high = counter.high.wrapping_add(1);
        return Counter { low, high };
    }
    Counter {
        low,
        high: counter.high,
    }
}
