// The members of a set, walked in order of number: what they add up to, their values read and changed, their numbers.
#![tactic(auto)]

ghost use Rattle.std.specs.Prelude.{◌≡◌, map, ◌+◌, ◌-◌, ◌%◌, ◌^◌, ◌≤◌, ◌<◌, length, take, drop};
ghost use Rattle.std.specs.Option.{MatchOption};
ghost use Rattle.std.specs.Iterator.{at_most};
ghost use Rattle.bsmp.specs.Base.{sum, cut, up_from};
ghost use Rattle.bsmp.specs.Message.{edited, values_of};
ghost use Rattle.copies.specs.Put.{put};
ghost use Rattle.sets.specs.Members.{members_of, members_below, size_at, set_bytes};
ghost use Rattle.sets.specs.Promises.{Sound, BytesAt};
ghost use Rattle.members.specs.Walked.{StartOf, Begun, RunOf};

use bsmp::Operation;
use sets::Walk;

// The bytes of all members.
pub fn set_bytes(sizes: &[u8], set: u64) -> usize
    requires { length sizes.now ≤ 64 }
    ensures { (result ≡ set_bytes set sizes.now) × (result ≤ 16320) }
{
    // all variables, as of group 0
    if set == !0 {
        return lists::offset(sizes, sizes.len());
    }
    let mut bytes: usize = 0;
    for i in Walk::over(set, sizes.len()) {
        bytes += usize::from(sizes[i.0]);
    }
    bytes
}

// A number that no member is below: the lowest of them, if there are any.
#[tactic(auto, using(crate::proofs::Stepped::start_none, crate::proofs::Stepped::start_lowest))]
fn start_of(set: u64) -> usize
    ensures { StartOf set result }
{
    if set == 0 {
        return 0;
    }
    sets::lowest(set)
}

// Members right after one another: their bytes stand together, in the store from `at` on and in the reply or the payload from `other` on.
#[derive(Clone, Copy)]
struct Run {
    at: usize,
    bytes: usize,
    other: usize,
}

// A walk over the runs of a set's members, ascending. It stands before variable i, whose bytes begin at `at`; `rest` are the marks from there on,
// and the next run's bytes stand in the reply or the payload from `other` on.
#[derive(Drop)]
struct RunWalk<'a> {
    sizes: &'a [u8],
    rest: u64,
    i: usize,
    at: usize,
    other: usize,
    ghost few: { length sizes.now ≤ 64 },
    ghost small: { sum sizes.now < 2 ^ 64 },
    ghost inside: { i ≤ length sizes.now },
    ghost left: { rest < 2 ^ (length sizes.now - i) },
    ghost place: { at ≡ sum (take i sizes.now) },
    ghost room: { other + sum (drop i sizes.now) < 2 ^ 64 },
}

impl<'a> RunWalk<'a> {
    // Over those of a set's members that are variables with these sizes; the first run's bytes stand from `other` on. What is before the first
    // member is passed at once, which is quicker than the walk.
    fn over(sizes: &'a [u8], set: u64, other: usize) -> RunWalk<'a>
        requires { (length sizes.now ≤ 64) × (other + sum sizes.now < 2 ^ 64) }
        ensures { (result.sizes.now ≡ sizes.now) × (result.other ≡ other) × Begun (set % 2 ^ length sizes.now) result.rest result.i }
    {
        let members = sets::declared(set, sizes.len());
        let i = start_of(members);
        RunWalk {
            sizes,
            rest: members >> i,
            i,
            at: lists::offset(sizes, i),
            other,
        }
    }
}

impl Iterator for RunWalk<'_> {
    type Item = Run;

    // the first run of what is left, or none where no mark is left
    ghost next_gives = { λ s r t. (t.sizes.now ≡ s.sizes.now) × MatchOption r (s.rest ≡ 0) (λ x.
        (x.other ≡ s.other) × (t.other ≡ s.other + x.bytes) × RunOf s.sizes.now s.rest s.i x.at x.bytes t.rest t.i) };

    ghost remaining = { λ s. at_most (length s.sizes.now - s.i) };

    // Within the loops that walk it: as a function that both call, a read of every other of 64 variables took a seventh more instructions.
    #[inline(always)]
    fn next(&mut self) -> Option<Run> {
        if self.rest == 0 {
            return None;
        }
        let mut i = self.i;
        let mut at = self.at;
        let mut rest = self.rest;
        // variable by variable, since the sizes that are passed are added up on the way: to count the marks at once and then walk over the sizes takes
        // longer for short gaps
        while rest % 2 == 0 {
            at += usize::from(self.sizes[i]);
            i += 1;
            rest /= 2;
        }
        let mut bytes = usize::from(self.sizes[i]);
        i += 1;
        rest /= 2;
        while rest % 2 == 1 {
            bytes += usize::from(self.sizes[i]);
            i += 1;
            rest /= 2;
        }
        let run = Run {
            at,
            bytes,
            other: self.other,
        };
        self.rest = rest;
        self.i = i;
        self.at = at + bytes;
        self.other += bytes;
        Some(run)
    }
}

// The members' values, ascending, into the reply from `at` on; answers how many bytes they are.
pub fn read_members(sizes: &[u8], set: u64, values: &[u8], reply: &mut [u8], at: usize) -> usize
    requires sound { Sound sizes.now values.now }
    requires at_in_bounds { at + 4096 ≤ length reply.old }
    ensures { let sizes = sizes.now in
        BytesAt (values_of (cut sizes values.now) (members_of set sizes)) 4096 reply.old at result reply.new }
{
    // all variables, as of group 0: their values are the store as it stands
    if set == !0 {
        let all = values.len();
        copies::read_value(values, 0, all, reply, at);
        return all;
    }
    let mut to = at;
    for run in RunWalk::over(sizes, set, at) {
        copies::read_value(values, run.at, run.bytes, reply, run.other);
        to = run.other + run.bytes;
    }
    to - at
}

// Each member's value changed by its part of the payload, from place `front` on.
pub fn change_members(
    sizes: &[u8],
    set: u64,
    values: &mut [u8],
    op: Operation,
    payload: &[u8],
    front: usize,
)
    requires sound { Sound sizes.now values.old }
    requires sizes_in_bounds { front + set_bytes set sizes.now ≤ length payload.now }
    ensures { let sizes = sizes.now in
        let parts = cut (map (size_at sizes) (members_of set sizes)) (drop front payload.now) in
        cut sizes values.new ≡ edited op (members_of set sizes) parts (cut sizes values.old) }
{
    if set == !0 {
        let all = values.len();
        lists::change_value(values, 0, all, op, payload, front);
        return;
    }
    for run in RunWalk::over(sizes, set, front) {
        lists::change_value(values, run.at, run.bytes, op, payload, run.other);
    }
}

// The numbers of the first variables, a byte each, into the reply from `at` on. How many variables there are is all that it needs of them.
fn list_all(count: usize, reply: &mut [u8], at: usize)
    requires { (count ≤ 64) × (at + 64 ≤ length reply.old) }
    ensures { reply.new ≡ put reply.old at (up_from 0 count) }
{
    for i in 0..count {
        reply[at + i] = i as u8;
    }
}

// The members' numbers, ascending, a byte each, into the reply from `at` on; answers how many they are.
pub fn list_members(count: usize, set: u64, reply: &mut [u8], at: usize) -> usize
    requires { (count ≤ 64) × (at + 64 ≤ length reply.old) }
    ensures { BytesAt (map (λ i. i.0) (members_below set count)) 64 reply.old at result reply.new }
{
    if set == !0 {
        list_all(count, reply, at);
        return count;
    }
    let mut to = at;
    for i in Walk::over(set, count) {
        reply[to] = i.0 as u8;
        to += 1;
    }
    to - at
}
