// The digest: one number that all that it took in has a part in.
ghost use Rattle.std.specs.Prelude.{◌≡◌, ℕ};
ghost use Rattle.pattern.specs.Pattern.{taken_in, sum_of};
ghost use Rattle.pattern.specs.Digest.{all_taken_by};

// What the digest takes in: a byte or a word, which counts as its number.
pub trait Number: Copy {
    ghost number: { Self → ℕ };

    // The number.
    fn number(self) -> u64
        ensures { result ≡ number self };
}

impl Number for u8 {
    ghost number = { λ byte. byte };

    fn number(self) -> u64 {
        self as u64
    }
}

impl Number for u16 {
    ghost number = { λ word. word };

    fn number(self) -> u64 {
        u64::from(self)
    }
}

// A digest that took in one number more.
pub fn taken(digest: u32, v: u64) -> u32
    ensures { result ≡ taken_in digest v }
{
    ((digest as u64 * 1000003 + v % 1099511627776) % 4294967291) as u32
}

// A digest that took in numbers, one after another.
pub fn all_taken<T: Number>(digest: u32, values: &[T]) -> u32
    ensures { result ≡ all_taken_by T.number digest values.now }
{
    values.iter().fold(digest, |d, v| taken(d, v.number()))
}

// The sum of what the digest takes in after a tick.
pub fn summed(a: u64, b: u64, c: u64, d: u64) -> u64
    ensures { result ≡ sum_of a b c d }
{
    a % 274877906944 + b % 274877906944 + c % 274877906944 + d % 274877906944
}
