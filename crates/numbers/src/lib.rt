// Numbers and their bytes: unsigned and signed, big and little endian, at sizes 1, 2, 4 and 8.
#![tactic(auto)]

ghost use Rattle.std.specs.Prelude.{Bool, ◌≡◌, true, false, ◌*◌, ◌^◌, ◌≤◌, ◌<◌, ℤ, pos, length};
ghost use Rattle.std.specs.Int.Signed.{mag};
ghost use Rattle.bsmp.specs.Number.{little, little_bytes, turned, meant, in_range, unsigned_of, number_of, bytes_of};
ghost use Rattle.numbers.specs.Size.{is_size, largest_of, half_of, place_of};

// Where, among n bytes, the one of weight 256 to the i stands. `big` is a value here and no type: a variable's kind says it when it is read.
fn place(i: usize, n: usize, big: bool) -> usize
    requires { i < n }
    ensures { result ≡ place_of big n i }
{
    if big { n - 1 - i } else { i }
}

// The bytes as an unsigned number, from the most significant down. Not by the library's from_le_bytes, which takes an array: how many bytes there
// are is known when the number is read.
#[tactic(auto, unfolding(bsmp::specs::Number::meant))]
pub fn unsigned_of(bytes: &[u8], big: bool) -> u64
    requires { length bytes.now ≤ 8 }
    ensures value { result ≡ little (turned big bytes.now) }
    ensures number { pos result ≡ number_of false big bytes.now }
{
    let mut u: u64 = 0;
    for i in (0..bytes.len()).rev() {
        let at = place(i, bytes.len(), big);
        u = u * 256 + bytes[at] as u64;
    }
    u
}

// The lowest bytes of an unsigned number, as many as there is room for.
pub fn write_bytes(u: u64, big: bool, out: &mut [u8])
    ensures lowest { out.new ≡ turned big (little_bytes (length out.old) u) }
    ensures number { out.new ≡ bytes_of big (length out.old) (pos u) }
{
    let mut rest = u;
    for i in 0..out.len() {
        let at = place(i, out.len(), big);
        out[at] = (rest % 256) as u8;
        rest /= 256;
    }
}

// The largest unsigned number of the size. That it is a size stands as a clause here and below: a type of sizes would be made and taken apart for each call.
fn largest(size: usize) -> u64
    requires { is_size size ≡ true }
    ensures { result ≡ largest_of size }
{
    u64::MAX >> (64 - 8 * size)
}

// Half the range of the size: the least unsigned value whose top bit is set.
fn half(size: usize) -> u64
    requires { is_size size ≡ true }
    ensures { result ≡ half_of size }
{
    largest(size) / 2 + 1
}

// z, or what is left of a negative z once 1 is added and the sign taken off.
fn magnitude(z: i64) -> u64
    ensures { result ≡ mag z }
{
    if z < 0 { (-1 - z) as u64 } else { z as u64 }
}

// The numbers that a variable's bytes stand for, unsigned or signed: how the two differ.
pub trait Number: Copy {
    const SIGNED: bool;

    ghost SIGNED: { Bool };

    // the integer that it is
    ghost meaning: { Self → ℤ };

    // What an unsigned value of the size means.
    fn of_value(u: u64, size: usize) -> Self
        requires { (is_size size ≡ true) × (u < 2 ^ (8 * size)) }
        ensures { meaning result ≡ meant SIGNED size u };

    fn fits(self, size: usize) -> bool
        requires { is_size size ≡ true }
        ensures { result ≡ in_range SIGNED size (meaning self) };

    // The unsigned value that stands for it.
    fn value(self, size: usize) -> u64
        requires { (is_size size ≡ true) × (in_range SIGNED size (meaning self) ≡ true) }
        ensures { result ≡ unsigned_of size (meaning self) };

    // no two are one integer
    ghost told_apart: { (a b : Self) → meaning a ≡ meaning b → a ≡ b };
}

#[tactic(auto, using(crate::proofs::Signed::unsigned_range), unfolding(bsmp::specs::Number::meant, bsmp::specs::Number::unsigned_of))]
impl Number for u64 {
    const SIGNED: bool = false;

    ghost SIGNED = { false };

    ghost meaning = { λ u. pos u };

    ghost told_apart = { λ a b h. Prim.cc };

    fn of_value(u: u64, _size: usize) -> u64 {
        u
    }

    fn fits(self, size: usize) -> bool {
        self <= largest(size)
    }

    fn value(self, _size: usize) -> u64 {
        self
    }
}

// Of a negative number, the top bit of the value is set.
impl Number for i64 {
    const SIGNED: bool = true;

    ghost SIGNED = { true };

    ghost meaning = { λ z. z };

    ghost told_apart = { λ a b h. h };

    fn of_value(u: u64, size: usize) -> i64 {
        if u < half(size) {
            return u as i64;
        }
        -1 - (largest(size) - u) as i64
    }

    #[tactic(auto, using(crate::proofs::Signed::signed_range))]
    fn fits(self, size: usize) -> bool {
        magnitude(self) < half(size)
    }

    #[tactic(auto, using(crate::proofs::Signed::value_within, crate::proofs::Signed::value_negative, crate::proofs::Signed::value_positive))]
    fn value(self, size: usize) -> u64 {
        let m = magnitude(self);
        if self < 0 { largest(size) - m } else { m }
    }
}

// The number that the bytes are.
pub fn read<N: Number>(bytes: &[u8], big: bool) -> N
    requires { is_size (length bytes.now) ≡ true }
    ensures { N.meaning result ≡ number_of N.SIGNED big bytes.now }
{
    N::of_value(unsigned_of(bytes, big), bytes.len())
}

// The number's bytes, into all of what is there for them.
pub fn write<N: Number>(number: N, big: bool, out: &mut [u8])
    requires { (is_size (length out.old) ≡ true) × (in_range N.SIGNED (length out.old) (N.meaning number) ≡ true) }
    ensures { out.new ≡ bytes_of big (length out.old) (N.meaning number) }
{
    write_bytes(number.value(out.len()), big, out);
}
