// One small function for each signed machine operation, with a contract in whole numbers. All above only calls them. Each asks what its operation needs of a
// number: a type of small numbers would be made and asked again at each, and would be no plainer.
ghost use Rattle.std.specs.Prelude.{◌≡◌, ◌+◌, ◌<◌, ◌%◌, ◌^◌, pos, neg_ℤ, ◌+ℤ◌, ◌-ℤ◌};
ghost use Rattle.std.specs.Int.Signed.{mag};
ghost use Rattle.numbers.specs.Twos.{signed_at, bits_at};

// 2 to the k.
pub fn power(k: u64) -> u64
    requires { k < 64 }
    ensures { result ≡ 2 ^ k }
{
    1u64 << k
}

// The low n bits of a word, for which the library has no call.
pub fn low(word: u64, n: u64) -> u64
    requires { n < 64 }
    ensures { result ≡ word % 2 ^ n }
{
    word & (power(n) - 1)
}

// -1 - z: it changes the sign, and every number of the type has one.
pub fn flip(z: i64) -> i64
    ensures { result ≡ neg_ℤ (pos 1) -ℤ z }
{
    -1 - z
}

// n for n and for -1 - n.
pub fn magnitude(z: i64) -> u64
    ensures { result ≡ mag z }
{
    if z < 0 { flip(z) as u64 } else { z as u64 }
}

// -z.
pub fn negate(z: i64) -> i64
    requires { mag z < 2 ^ 62 }
    ensures { result ≡ neg_ℤ z }
{
    -z
}

// x + y.
pub fn sum(x: i64, y: i64) -> i64
    requires { (mag x < 2 ^ 61) × (mag y < 2 ^ 61) }
    ensures { result ≡ x +ℤ y }
{
    x + y
}

// a - b of two natural numbers.
pub fn difference(a: u64, b: u64) -> i64
    requires { (a < 2 ^ 62) × (b < 2 ^ 62) }
    ensures { result ≡ pos a -ℤ pos b }
{
    a as i64 - b as i64
}

// The number that `bits`, of h + 1 bits, stand for.
pub fn signed(bits: u64, h: u64) -> i64
    requires { (h < 48) × (bits < 2 ^ (h + 1)) }
    ensures { result ≡ signed_at h bits }
{
    let top = power(h);
    let raised = low(bits + top, h + 1);
    difference(raised, top)
}

// The h + 1 bits that stand for z.
pub fn bits(z: i64, h: u64) -> u64
    requires { h < 48 }
    ensures { result ≡ bits_at h z }
{
    if z < 0 {
        power(h + 1) - 1 - low(magnitude(z), h + 1)
    } else {
        low(magnitude(z), h + 1)
    }
}
