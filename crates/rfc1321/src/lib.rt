// MD5 by RFC 1321: words, rounds, and a chunk of 64 bytes. The names are the RFC's where it has any.
#![tactic(auto)]

ghost use Rattle.std.specs.Prelude.{◌≡◌, ℕ, suc, ◌+◌, ◌*◌, ◌%◌, ◌<◌, ◌≤◌, List, [], ◌∷◌, length};
ghost use Rattle.rfc1321.specs.Md5 as rfc;
ghost use Rattle.rfc1321.specs.Md5.{word, operation, operations, added, operated};
ghost use Rattle.rfc1321.specs.Rounds.{Shift, Listed, first, second, third, fourth};

// The four words that a message is worked into: the RFC's A, B, C and D.
#[derive(Clone, Copy)]
pub struct State {
    pub a: u32,
    pub b: u32,
    pub c: u32,
    pub d: u32,
}

// T[1] to T[64]: of each i "the integer part of 4294967296 times abs(sin(i))".
const TABLE: [u32; 64] = [
    0xd76aa478, 0xe8c7b756, 0x242070db, 0xc1bdceee, 0xf57c0faf, 0x4787c62a, 0xa8304613, 0xfd469501,
    0x698098d8, 0x8b44f7af, 0xffff5bb1, 0x895cd7be, 0x6b901122, 0xfd987193, 0xa679438e, 0x49b40821,
    0xf61e2562, 0xc040b340, 0x265e5a51, 0xe9b6c7aa, 0xd62f105d, 0x02441453, 0xd8a1e681, 0xe7d3fbc8,
    0x21e1cde6, 0xc33707d6, 0xf4d50d87, 0x455a14ed, 0xa9e3e905, 0xfcefa3f8, 0x676f02d9, 0x8d2a4c8a,
    0xfffa3942, 0x8771f681, 0x6d9d6122, 0xfde5380c, 0xa4beea44, 0x4bdecfa9, 0xf6bb4b60, 0xbebfbc70,
    0x289b7ec6, 0xeaa127fa, 0xd4ef3085, 0x04881d05, 0xd9d4d039, 0xe6db99e5, 0x1fa27cf8, 0xc4ac5665,
    0xf4292244, 0x432aff97, 0xab9423a7, 0xfc93a039, 0x655b59c3, 0x8f0ccc92, 0xffeff47d, 0x85845dd1,
    0x6fa87e4f, 0xfe2ce6e0, 0xa3014314, 0x4e0811a1, 0xf7537e82, 0xbd3af235, 0x2ad7d2bb, 0xeb86d391,
];

// A round as the RFC has it: its function, and its sixteen operations. The code counts them from 0 to 15 in each round, where the RFC counts from
// 1 to 64 through all of them, and goes through them in four turns of four.
trait Round {
    // F, G, H or I
    ghost function: { ℕ → ℕ → ℕ → ℕ };

    // "the following 16 operations": k, s and i of each
    ghost ops: { List (ℕ × ℕ × ℕ) };

    // k of an operation
    ghost k: { ℕ → ℕ };

    ghost BEFORE: { ℕ };

    ghost SHIFTS: { List ℕ };

    // How many operations come before the round.
    const BEFORE: usize;

    // The shifts of a turn.
    const SHIFTS: [u32; 4];

    fn mix(x: u32, y: u32, z: u32) -> u32
        ensures { result ≡ function x y z };

    // Which word of the chunk an operation takes.
    fn place(i: usize) -> usize
        requires { i < 16 }
        ensures { (result ≡ k i) × (result < 16) };

    ghost listed: { Listed k BEFORE SHIFTS ops };
}

struct First;

impl Round for First {
    ghost function = { rfc.F };

    ghost ops = { rfc.round1 };

    ghost k = { λ i. i };

    ghost BEFORE = { 0 };

    ghost SHIFTS = { 7 ∷ 12 ∷ 17 ∷ 22 ∷ [] };

    const BEFORE: usize = 0;

    const SHIFTS: [u32; 4] = [7, 12, 17, 22];

    #[tactic(auto, unfolding(crate::specs::Md5::F, crate::specs::Md5::not))]
    fn mix(x: u32, y: u32, z: u32) -> u32 {
        (x & y) | (!x & z)
    }

    fn place(i: usize) -> usize {
        i
    }

    ghost listed = { first };
}

struct Second;

impl Round for Second {
    ghost function = { rfc.G };

    ghost ops = { rfc.round2 };

    ghost k = { λ i. (1 + 5 * i) % 16 };

    ghost BEFORE = { 16 };

    ghost SHIFTS = { 5 ∷ 9 ∷ 14 ∷ 20 ∷ [] };

    const BEFORE: usize = 16;

    const SHIFTS: [u32; 4] = [5, 9, 14, 20];

    #[tactic(auto, unfolding(crate::specs::Md5::G, crate::specs::Md5::not))]
    fn mix(x: u32, y: u32, z: u32) -> u32 {
        (x & z) | (y & !z)
    }

    fn place(i: usize) -> usize {
        (1 + 5 * i) % 16
    }

    ghost listed = { second };
}

struct Third;

impl Round for Third {
    ghost function = { rfc.H };

    ghost ops = { rfc.round3 };

    ghost k = { λ i. (5 + 3 * i) % 16 };

    ghost BEFORE = { 32 };

    ghost SHIFTS = { 4 ∷ 11 ∷ 16 ∷ 23 ∷ [] };

    const BEFORE: usize = 32;

    const SHIFTS: [u32; 4] = [4, 11, 16, 23];

    #[tactic(auto, unfolding(crate::specs::Md5::H))]
    fn mix(x: u32, y: u32, z: u32) -> u32 {
        x ^ y ^ z
    }

    fn place(i: usize) -> usize {
        (5 + 3 * i) % 16
    }

    ghost listed = { third };
}

struct Fourth;

impl Round for Fourth {
    ghost function = { rfc.I };

    ghost ops = { rfc.round4 };

    ghost k = { λ i. 7 * i % 16 };

    ghost BEFORE = { 48 };

    ghost SHIFTS = { 6 ∷ 10 ∷ 15 ∷ 21 ∷ [] };

    const BEFORE: usize = 48;

    const SHIFTS: [u32; 4] = [6, 10, 15, 21];

    #[tactic(auto, unfolding(crate::specs::Md5::I, crate::specs::Md5::not))]
    fn mix(x: u32, y: u32, z: u32) -> u32 {
        y ^ (x | !z)
    }

    fn place(i: usize) -> usize {
        7 * i % 16
    }

    ghost listed = { fourth };
}

// Word k of x, low-order byte first.
#[tactic(auto, unfolding(crate::specs::Md5::word))]
fn word(x: &[u8], k: usize) -> u32
    requires { 4 * k + 4 ≤ length x.now }
    ensures { result ≡ word x.now k }
{
    u32::from_le_bytes([x[4 * k], x[4 * k + 1], x[4 * k + 2], x[4 * k + 3]])
}

// Operation i of a round.
fn step<R: Round>(q: State, x: &[u8], i: usize, s: u32) -> State
    requires { (64 ≤ length x.now) × (i < 16) × Shift s }
    ensures { result ≡ operation R.function x.now (R.k i, s, suc (R.BEFORE + i)) q }
{
    let sum = q
        .a
        .wrapping_add(R::mix(q.b, q.c, q.d))
        .wrapping_add(word(x, R::place(i)))
        .wrapping_add(TABLE[R::BEFORE + i]);
    State {
        a: q.d,
        b: q.b.wrapping_add(sum.rotate_left(s)),
        c: q.b,
        d: q.c,
    }
}

// A round on the first 64 bytes of x. Four operations are written out in a turn, so that their shifts are constants of the compiled code.
fn sixteen<R: Round>(start: State, x: &[u8]) -> State
    requires { 64 ≤ length x.now }
    ensures { result ≡ operations R.function x.now R.ops start }
{
    let mut q = start;
    for turn in 0..4 {
        let i = 4 * turn;
        q = step::<R>(q, x, i, R::SHIFTS[0]);
        q = step::<R>(q, x, i + 1, R::SHIFTS[1]);
        q = step::<R>(q, x, i + 2, R::SHIFTS[2]);
        q = step::<R>(q, x, i + 3, R::SHIFTS[3]);
    }
    q
}

fn added(p: State, q: State) -> State
    ensures { result ≡ added p q }
{
    State {
        a: q.a.wrapping_add(p.a),
        b: q.b.wrapping_add(p.b),
        c: q.c.wrapping_add(p.c),
        d: q.d.wrapping_add(p.d),
    }
}

// The first 64 bytes of x. That there are so many stands as a clause, here and above: what comes is a part of a message, and no array.
#[tactic(auto, unfolding(crate::specs::Md5::operated))]
pub fn chunk(q: State, x: &[u8]) -> State
    requires { 64 ≤ length x.now }
    ensures { result ≡ operated q x.now }
{
    let one = sixteen::<First>(q, x);
    let two = sixteen::<Second>(one, x);
    let three = sixteen::<Third>(two, x);
    added(q, sixteen::<Fourth>(three, x))
}
