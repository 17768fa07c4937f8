// Lists of bytes: the checksum, offsets, and a value changed in its place.
#![tactic(auto)]

ghost use Rattle.std.specs.Prelude.{◌≡◌, ◌+◌, ◌%◌, ◌≤◌, length, take};
ghost use Rattle.bsmp.specs.Base.{sum};
ghost use Rattle.copies.specs.Put.{put, part};
ghost use Rattle.bsmp.specs.Message.{operated, changed};

use bsmp::Operation;

// The sum of the bytes modulo 256.
pub fn byte_sum(bytes: &[u8]) -> u8
    ensures { result ≡ sum bytes.now % 256 }
{
    bytes.iter().fold(0, |sum, byte| sum.wrapping_add(*byte))
}

// The sum of the first n sizes. That there are 64 at most stands as a clause, here and wherever sizes are lent: a slice holds no invariant, and a
// struct around it takes a packet more stack than is allowed (`groups` says how much).
pub fn offset(sizes: &[u8], n: usize) -> usize
    requires { (n ≤ length sizes.now) × (length sizes.now ≤ 64) }
    ensures { result ≡ sum (take n sizes.now) }
{
    let mut sum: u16 = 0;
    for size in &sizes[..n] {
        sum += u16::from(*size);
    }
    usize::from(sum)
}

// One byte, with the mask's bits on, off or inverted, or with only them kept.
#[tactic(auto, unfolding(bsmp::specs::Message::operated))]
pub fn masked_byte(op: Operation, x: u8, m: u8) -> u8
    ensures { result ≡ operated op x m }
{
    match op {
        Operation::Replace => m,
        Operation::TurnOn => x | m,
        Operation::TurnOff => x & !m,
        Operation::Invert => x ^ m,
        Operation::KeepOnly => x & m,
        Operation::Other => x,
    }
}

// The mask on the front of dst. By an index into dst, and not by zip: once a zip's `iter_mut` is over, a proof knows no byte of dst.
pub fn mask_into(dst: &mut [u8], op: Operation, mask: &[u8])
    requires { length mask.now ≤ length dst.old }
    ensures { dst.new ≡ put dst.old 0 (changed op dst.old mask.now) }
{
    for (i, m) in mask.iter().enumerate() {
        dst[i] = masked_byte(op, dst[i], *m);
    }
}

// The n bytes of the store from `at` on, changed by the n bytes of the payload from `from` on.
#[tactic(auto, using(crate::proofs::Mask::change_back))]
pub fn change_value(
    store: &mut [u8],
    at: usize,
    n: usize,
    op: Operation,
    payload: &[u8],
    from: usize,
)
    requires { (at + n ≤ length store.old) × (from + n ≤ length payload.now) }
    ensures { let value = changed op (part store.old at n) (part payload.now from n) in
        store.new ≡ put store.old at value }
{
    mask_into(&mut store[at..], op, &payload[from..from + n]);
}
