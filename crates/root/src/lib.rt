#![tactic(auto)]
// IEEE 754's square root on every f32, in whole numbers. A guess in f32 arithmetic comes first and nobody
// trusts it: what is proved is the search from there, down and then up, to the one right answer.

ghost use Rattle.std.specs.Prelude.{◌≡◌, ◌+◌, ◌*◌, ◌^◌, ◌≤◌, ◌<◌};
ghost use Rattle.std.specs.Float.{binary32};
ghost use Rattle.std.specs.Float.Ieee.{of_bits};
ghost use Rattle.root.specs.Root.{root_of, rounded_root, square_units};
ghost use Rattle.root.specs.Scale.{Scale, Close, left};

// 01, Geometry: "Square root: IEEE 754, nearest. .. Zero keeps its sign; below zero NaN."
pub fn root(x: f32) -> f32
    ensures { result ≡ root_of x }
{
    let bits = float::to_bits(x);
    if bits % 0x8000_0000 == 0 {
        return x;
    }
    if 0x8000_0000 < bits {
        return 0.0f32 / 0.0f32;
    }
    // Infinity and NaN stay what they are.
    if 0x7F80_0000 <= bits {
        return x;
    }
    float::from_bits(pattern_root(bits))
}

// The root of a positive finite f32, from pattern to pattern.
fn pattern_root(bits: u32) -> u32
    requires { (0 < bits) × (bits < 0x7F800000) }
    ensures { of_bits binary32 result ≡ rounded_root (square_units (of_bits binary32 bits)) }
{
    let number = Number::scaled(bits);
    let q = nearest(number.kept(), number.guess());
    (number.places - 23) / 2 * 0x80_0000 + q
}

// A number as digits * 2 ^ places.
#[derive(Clone, Copy)]
struct Number {
    digits: u32,
    places: u32,
}

impl Number {
    // The number whose root is sought, in square units, with its leading 24 digits apart. A subnormal's digits are moved up.
    fn scaled(bits: u32) -> Number
        requires { (0 < bits) × (bits < 0x7F800000) }
        ensures { Scale (square_units (of_bits binary32 bits)) result.digits result.places }
    {
        let field = bits / 0x80_0000;
        let digits = bits % 0x80_0000;
        if field == 0 {
            let by = digits.leading_zeros() - 8;
            return Number {
                digits: digits << by,
                places: 149 - by,
            };
        }
        Number {
            digits: digits + 0x80_0000,
            places: field + 148,
        }
    }

    // What is left of the number once the pairs of digits that the root drops are gone.
    fn kept(self) -> u64
        requires { (self.digits < 2 ^ 24) × (23 ≤ self.places) }
        ensures { result ≡ left self.digits self.places }
    {
        if self.places % 2 == 0 {
            return u64::from(self.digits) * 0x100_0000;
        }
        u64::from(self.digits) * 0x80_0000
    }

    // A number near the root, within a few units. Two steps of Newton's from a straight line that is off by 3 in
    // 100 at most. Only its range is proved: the search from it ends at the root wherever it starts.
    fn guess(self) -> u32
        requires { (2 ^ 23 ≤ self.digits) × (self.digits < 2 ^ 24) }
        ensures { result < 2 ^ 25 }
    {
        // The digits as an f32 from 1 to 4, whose root, from 1 to 2, has the digits sought.
        let x = float::from_bits(self.digits + 0x3F00_0000 + (1 - self.places % 2) * 0x80_0000);
        let line = x * 0.34314575 + 0.6862915;
        let first = 0.5 * (line + x / line);
        let second = 0.5 * (first + x / first);
        // The pattern of 1 is 2 ^ 23 here, and that of 2 is 2 ^ 24: a guess just past either end stays near.
        (float::to_bits(second) % 0x200_0000 + 0x100_0000) % 0x200_0000
    }
}

// The guess, or one beside it that is nearer to the root of n. A guess is seldom off by more; so the search from here mostly has
// nowhere to go. Which of the three it is no processor could foresee, so no branch asks: a sum that reaches 2 ^ 50 is one
// step. Only its range is proved.
fn nudged(n: u64, guess: u64) -> u64
    requires { (n < 2 ^ 48) × (guess < 2 ^ 25) }
    ensures { result < 2 ^ 25 }
{
    let square = guess * guess;
    let up = (n + 0x3_FFFF_FFFF_FFFF - square - guess) / 0x4_0000_0000_0000;
    let down = (square + 0x4_0000_0000_0000 - n - guess) / 0x4_0000_0000_0000;
    (guess + 0x200_0000 + up - down) % 0x200_0000
}

// The whole number nearest to the root of n.
fn nearest(n: u64, guess: u32) -> u32
    requires { (0 < n) × (n + 2 ^ 24 ≤ 2 ^ 48) × (guess < 2 ^ 25) }
    ensures { Close n result }
{
    let start = nudged(n, u64::from(guess));
    raised(n, lowered(n, start)) as u32
}

// Down from the guess, to a number that is not too large.
fn lowered(n: u64, guess: u64) -> u64
    requires { (0 < n) × (n < 2 ^ 48) × (guess < 2 ^ 25) }
    ensures { result * result < n + result }
{
    let mut q = guess;
    while n + q <= q * q {
        q -= 1;
    }
    q
}

// Up from a number that is not too large, to one that is not too small either.
fn raised(n: u64, start: u64) -> u64
    requires { (n + 2 ^ 24 ≤ 2 ^ 48) × (start * start < n + start) }
    ensures { (result < 2 ^ 24) × Close n result }
{
    let mut q = start;
    while q * q + q < n {
        q += 1;
    }
    q
}
