// Sets of variables as marks: a group's set, what is marked, a walk over the members, the set of IDs.
#![tactic(auto)]

ghost use Rattle.std.specs.Prelude.{◌≡◌, true, false, cond, ◌+◌, ◌-◌, ◌%◌, ◌^◌, ◌≤◌, ◌<◌, eqb, length};
ghost use Rattle.std.specs.Iterator.{YieldsFirst, item_count};
ghost use Rattle.bsmp.specs.Base.{every, some};
ghost use Rattle.bsmp.specs.Board.{marked};
ghost use Rattle.sets.specs.Members.{members_below};
ghost use Rattle.sets.specs.Promises.{Below, Named, GroupSet, Lowest};

use bsmp::{GroupNumber, VariableNumber};

// Whether variable i is marked.
#[tactic(auto, unfolding(bsmp::specs::Base::has))]
pub fn is_marked(marks: u64, i: VariableNumber) -> bool
    requires { i.0 < 64 }
    ensures { result ≡ marked marks i }
{
    (marks >> i.0) % 2 == 1
}

// The set of a group. Nothing below this function knows of groups.
pub fn group_set(writable: u64, groups: &[u64], g: GroupNumber) -> u64
    requires { g.0 < 3 + length groups.now }
    ensures { GroupSet writable groups.now g result }
{
    match g.0 {
        0 => !0,
        1 => !writable,
        2 => writable,
        n => groups[n - 3],
    }
}

// The marks of the first `count` variables. With 64, which is too far to shift, each mark is one of theirs.
#[tactic(auto, using(crate::proofs::AtOnce::first_all, crate::proofs::AtOnce::first_some, crate::proofs::AtOnce::first_marks))]
pub fn declared(set: u64, count: usize) -> u64
    requires { count ≤ 64 }
    ensures { result ≡ set % 2 ^ count }
{
    if 64 <= count {
        return set;
    }
    set % (1 << count)
}

// How many variables are marked.
pub fn count_marks(set: u64) -> usize
    ensures { (result ≡ length (members_below set 64)) × (result ≤ 64) }
{
    set.count_ones() as usize
}

// A line each for all and for some, since they promise different words.
// Whether all members of a set are marked.
#[tactic(auto, using(crate::proofs::AtOnce::and_all))]
pub fn all_marked(set: u64, marks: u64) -> bool
    ensures { result ≡ every (marked marks) (members_below set 64) }
{
    set & marks == set
}

// Whether a member of a set is marked.
#[tactic(auto, using(crate::proofs::AtOnce::and_some))]
pub fn some_marked(set: u64, marks: u64) -> bool
    ensures { result ≡ some (marked marks) (members_below set 64) }
{
    set & marks != 0
}

// Whether a group is writable: 1 and 2 are what they are even if empty, another is if all its members are.
#[tactic(auto, using(crate::proofs::Group::writable_made))]
pub fn group_writable(g: GroupNumber, set: u64, writable: u64) -> bool
    ensures { result ≡ cond (eqb g.0 1) false (cond (eqb g.0 2) true (every (marked writable) (members_below set 64))) }
{
    match g.0 {
        1 => false,
        2 => true,
        _ => all_marked(set, writable),
    }
}

// The lowest member.
pub fn lowest(set: u64) -> usize
    requires { 0 < set }
    ensures { Lowest set result }
{
    set.trailing_zeros() as usize
}

// The other members.
#[tactic(auto, using(crate::proofs::First::mark_there, crate::proofs::First::mark_off))]
pub fn without_lowest(set: u64, i: usize) -> u64
    requires { Lowest set i }
    ensures { result ≡ set - 2 ^ i }
{
    set - (1 << i)
}

// A walk over the members of a set, ascending.
#[derive(Drop)]
pub struct Walk {
    left: u64,
}

impl Walk {
    // Over those of the first `count` variables.
    #[tactic(auto, using(crate::proofs::AtOnce::below_declared))]
    pub fn over(set: u64, count: usize) -> Walk
        requires { count ≤ 64 }
        ensures { members_below result.left 64 ≡ members_below set count }
    {
        Walk {
            left: declared(set, count),
        }
    }
}

impl Iterator for Walk {
    type Item = VariableNumber;

    ghost next_gives = { YieldsFirst (λ w. members_below w.left 64) };

    ghost remaining = { item_count (λ w. members_below w.left 64) };

    #[tactic(auto, using(crate::proofs::AtOnce::none_left))]
    fn next(&mut self) -> Option<VariableNumber> {
        if self.left == 0 {
            return None;
        }
        let i = lowest(self.left);
        self.left = without_lowest(self.left, i);
        Some(VariableNumber(i))
    }
}

// The set of the variables named: a union, so their order doesn't matter.
pub fn set_of(ids: &[u8]) -> u64
    requires { Below 64 ids.now }
    ensures { Named ids.now result }
{
    let mut set: u64 = 0;
    for id in ids {
        set |= 1 << *id;
    }
    set
}
