//! Tables of bits, in words of 64: one bit, and runs of bits a word at a time.

ghost use Rattle.std.specs.Prelude.{◌≡◌, ℕ, ◌+◌, ◌*◌, ◌%◌, ◌^◌, ◌<◌, ◌≤◌, ◌↔◌, ◌&&◌, ◌||◌, true, false, IsTrue};
ghost use Rattle.std.specs.Prelude.{length, nat_eq, nat_lt};
ghost use Rattle.std.specs.Int.{bit_at};
ghost use Rattle.mosaic_rounds.specs.Bits.{has_bit};

/// Whether the bit is set.
pub fn is_set(words: &[u64], i: usize) -> bool
    requires room { i < 64 * length words.now }
    ensures value { result ≡ has_bit words.now i }
{
    words[i / 64] >> (i % 64) & 1 == 1
}

/// Sets the bit.
pub fn set(words: &mut [u64], i: usize)
    requires room { i < 64 * length words.old }
    ensures room { length words.new ≡ length words.old }
    ensures added { (j : ℕ) → has_bit words.new j ≡ (has_bit words.old j || nat_eq i j) }
{
    words[i / 64] |= 1 << (i % 64);
}

/// Whether one of so many bits is set from `i` on, and not at the same place from `j` on in the other table.
///
/// Cost (not proved): a step for each word of either table.
pub fn exceeds(words: &[u64], i: usize, others: &[u64], j: usize, count: usize) -> bool
    requires room { i + count ≤ 64 * length words.now }
    requires others { j + count ≤ 64 * length others.now }
    requires small { (i + count < 2 ^ 64) × (j + count < 2 ^ 64) }
    ensures value { (result ≡ true) ↔ ((k : ℕ) × (k < count) × IsTrue (has_bit words.now (i + k))
        × (has_bit others.now (j + k) ≡ false)) }
{
    let mut done = 0;
    while done < count {
        let run = run_of(i + done, j + done, count - done);
        if run_at(words, i + done, run) & !run_at(others, j + done, run) != 0 {
            return true;
        }
        done += run;
    }
    false
}

/// Sets those of so many bits from `i` on that are set at the same place from `j` on in the other table.
///
/// Cost (not proved): a step for each word of either table.
pub fn add(words: &mut [u64], i: usize, others: &[u64], j: usize, count: usize)
    requires room { i + count ≤ 64 * length words.old }
    requires others { j + count ≤ 64 * length others.now }
    requires small { (i + count < 2 ^ 64) × (j + count < 2 ^ 64) }
    ensures room { length words.new ≡ length words.old }
    ensures added { (k : ℕ) → has_bit words.new (i + k)
        ≡ (has_bit words.old (i + k) || (nat_lt k count && has_bit others.now (j + k))) }
    ensures before { (k : ℕ) → k < i → has_bit words.new k ≡ has_bit words.old k }
{
    let mut done = 0;
    while done < count {
        let run = run_of(i + done, j + done, count - done);
        let bits = run_at(others, j + done, run);
        words[(i + done) / 64] |= bits << ((i + done) % 64);
        done += run;
    }
}

/// How many bits from the one and the other on lie in one word of each, at most so many.
fn run_of(i: usize, j: usize, most: usize) -> usize
    ensures i { i % 64 + result ≤ 64 }
    ensures j { j % 64 + result ≤ 64 }
    ensures most { result ≤ most }
    ensures some { 1 ≤ most → 1 ≤ result }
{
    most.min(64 - i % 64).min(64 - j % 64)
}

/// So many bits from this one on, all in one word, as a number.
fn run_at(words: &[u64], i: usize, run: usize) -> u64
    requires room { i < 64 * length words.now }
    requires run { (1 ≤ run) × (i % 64 + run ≤ 64) }
    ensures inside { (k : ℕ) → k < run → nat_eq (bit_at result k) 1 ≡ has_bit words.now (i + k) }
    ensures beyond { result < 2 ^ run }
{
    words[i / 64] >> (i % 64) & (u64::MAX >> (64 - run))
}
