// Copies of bytes: a list into the front of another, and a part of one into another.
#![tactic(auto)]

ghost use Rattle.std.specs.Prelude.{◌≡◌, ◌+◌, ◌≤◌, length};
ghost use Rattle.copies.specs.Put.{put, part};

// Copies all of src to the front of dst.
pub fn copy_into(dst: &mut [u8], src: &[u8])
    requires { length src.now ≤ length dst.old }
    ensures { dst.new ≡ put dst.old 0 src.now }
{
    for (i, b) in src.iter().enumerate() {
        dst[i] = *b;
    }
}

// n bytes of the store from `from` on, into the reply from `to` on.
pub fn read_value(store: &[u8], from: usize, n: usize, reply: &mut [u8], to: usize)
    requires { (from + n ≤ length store.now) × (to + n ≤ length reply.old) }
    ensures { reply.new ≡ put reply.old to (part store.now from n) }
{
    copy_into(&mut reply[to..], &store[from..from + n]);
}

// A piece of 64 bytes, from the place in src where it goes in dst. It goes by way of an array, of which the compiler knows that it is apart from both.
fn copy_piece(dst: &mut [u8], src: &[u8], at: usize)
    requires { (at + 64 ≤ length src.now) × (at + 64 ≤ length dst.old) }
    ensures { dst.new ≡ put dst.old at (part src.now at 64) }
{
    let mut piece = [0u8; 64];
    copy_into(&mut piece, &src[at..at + 64]);
    copy_into(&mut dst[at..], &piece);
}

// Copies as `copy_into` does, but by pieces, which is quicker for a block and takes more stack where it stands for a value. All at once it would be
// quicker still, and a call of memmove, for which an archive would need a C library that has it. Taken into a packet's entry it would cost all
// packets 48 bytes of stack.
#[inline(never)]
pub fn copy_block(dst: &mut [u8], src: &[u8])
    requires { length src.now ≤ length dst.old }
    ensures { dst.new ≡ put dst.old 0 src.now }
{
    let whole = src.len() / 64;
    for turn in 0..whole {
        copy_piece(dst, src, 64 * turn);
    }
    copy_into(&mut dst[64 * whole..], &src[64 * whole..]);
}

// As `read_value`, for a block.
pub fn read_block(store: &[u8], from: usize, n: usize, reply: &mut [u8], to: usize)
    requires { (from + n ≤ length store.now) × (to + n ≤ length reply.old) }
    ensures { reply.new ≡ put reply.old to (part store.now from n) }
{
    copy_block(&mut reply[to..], &store[from..from + n]);
}
