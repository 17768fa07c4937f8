// The commands of groups: which error each meets, what a write changes, what the answers tell. Every check has the same parameters,
// also those that it doesn't look at, and no check sees a value. They take sizes, marks and sets, and no layout with curves and functions in it: so a
// contract shows what plays no part. They come one by one: lent as a struct, whose type would say that the sizes are 64 at most, they take a packet's
// stack to 680 bytes, where 640 are allowed.
#![tactic(auto)]

ghost use Rattle.std.specs.Prelude.{◌≡◌, false, cond, Ok, Err, ◌++◌, map, ◌+◌, ◌≤◌, ◌<◌, length, drop};
ghost use Rattle.bsmp.specs.Base.{some, cut, first};
ghost use Rattle.bsmp.specs.Board.{size_of, marked, members, writable_group, group_count};
ghost use Rattle.bsmp.specs.Message.{group_id_at, no_group, listed, group_list, writes_group, group_members, last_tests, check, edited, values_of};
ghost use Rattle.bsmp.specs.Codes.{Pass, Fail};
ghost use Rattle.bsmp.specs.declared.WireError.TheVariants.{BadId};
ghost use Rattle.bsmp.specs.declared.Command.TheVariants.{ShowGroup, ReadGroup, WriteGroup, MaskGroup, MakeGroup};
ghost use Rattle.parts.specs.Parts.{variables_only, PayloadAt};
ghost use Rattle.sets.specs.Promises.{Sound, GroupSet};
ghost use Rattle.groups.specs.Promises.{GroupKnown, GroupFits, Looked};

use bsmp::{GroupNumber, Operation, WireError};

// The group named first, if it exists: three always do.
fn existing(groups: &[u64], payload: &[u8]) -> Result<GroupNumber, WireError>
    requires { 0 < length payload.now }
    ensures { let g = group_id_at payload.now 0 in
        result ≡ cond (no_group groups.now g) (Err BadId) (Ok g) }
{
    let g = parts::group_at(payload, 0);
    if 3 + groups.len() <= g.0 {
        return Err(WireError::BadId);
    }
    Ok(g)
}

// The set of the group named first.
fn named_set(writable: u64, groups: &[u64], payload: &[u8]) -> u64
    requires { GroupKnown groups.now payload.now }
    ensures { GroupSet writable groups.now (group_id_at payload.now 0) result }
{
    sets::group_set(writable, groups, parts::group_at(payload, 0))
}

// The tests that a write of the group named first must pass after the front.
#[tactic(auto, using(crate::proofs::Known::bytes_are, crate::proofs::Known::marks_are), unfolding(bsmp::specs::Message::writes_group, bsmp::specs::Board::writable_group, bsmp::specs::Base::first))]
fn writes(
    sizes: &[u8],
    writable: u64,
    groups: &[u64],
    payload: &[u8],
    front: usize,
    busy: u64,
) -> Result<(), WireError>
    requires sizes_len_bound { (length sizes.now ≤ 64) × (front ≤ 2) }
    requires group_known { GroupKnown groups.now payload.now }
    ensures { let l = variables_only sizes.now writable in
        let members = group_members l groups.now payload.now in
        result ≡ first (writes_group l groups.now payload.now front ++ last_tests (some (marked busy) members) false) Fail Pass }
{
    let set = named_set(writable, groups, payload);
    if payload.len() != front + members::set_bytes(sizes, set) {
        return Err(WireError::BadSize);
    }
    let members = sets::declared(set, sizes.len());
    if !sets::group_writable(parts::group_at(payload, 0), members, writable) {
        return Err(WireError::ReadOnly);
    }
    if sets::some_marked(members, busy) {
        return Err(WireError::Busy);
    }
    Ok(())
}

// 06: a group to be shown.
#[tactic(auto, unfolding(bsmp::specs::Message::check, bsmp::specs::Message::line, bsmp::specs::Base::first))]
pub fn check_show(
    sizes: &[u8],
    writable: u64,
    groups: &[u64],
    payload: &[u8],
    busy: u64,
) -> Result<(), WireError>
    requires { length sizes.now ≤ 64 }
    ensures { result ≡ check (variables_only sizes.now writable) groups.now busy payload.now ShowGroup }
{
    if payload.len() != 1 {
        return Err(WireError::BadSize);
    }
    existing(groups, payload)?;
    Ok(())
}

// 12: a group to be read.
#[tactic(auto, using(crate::proofs::Known::read_are), unfolding(bsmp::specs::Message::check, bsmp::specs::Message::line, bsmp::specs::Base::first))]
pub fn check_read(
    sizes: &[u8],
    writable: u64,
    groups: &[u64],
    payload: &[u8],
    busy: u64,
) -> Result<(), WireError>
    requires { length sizes.now ≤ 64 }
    ensures { result ≡ check (variables_only sizes.now writable) groups.now busy payload.now ReadGroup }
{
    if payload.len() != 1 {
        return Err(WireError::BadSize);
    }
    existing(groups, payload)?;
    let read = sets::declared(named_set(writable, groups, payload), sizes.len());
    if sets::some_marked(read, busy) {
        return Err(WireError::Busy);
    }
    Ok(())
}

// 22: a group to be written.
#[tactic(auto, unfolding(bsmp::specs::Message::check, bsmp::specs::Message::line, bsmp::specs::Base::first))]
pub fn check_write(
    sizes: &[u8],
    writable: u64,
    groups: &[u64],
    payload: &[u8],
    busy: u64,
) -> Result<(), WireError>
    requires { length sizes.now ≤ 64 }
    ensures { result ≡ check (variables_only sizes.now writable) groups.now busy payload.now WriteGroup }
{
    if payload.is_empty() {
        return Err(WireError::BadSize);
    }
    existing(groups, payload)?;
    writes(sizes, writable, groups, payload, 1, busy)
}

// 26: a group to be masked; the operation follows its number.
#[tactic(auto, unfolding(bsmp::specs::Message::check, bsmp::specs::Message::line, bsmp::specs::Base::first))]
pub fn check_mask(
    sizes: &[u8],
    writable: u64,
    groups: &[u64],
    payload: &[u8],
    busy: u64,
) -> Result<(), WireError>
    requires { length sizes.now ≤ 64 }
    ensures { result ≡ check (variables_only sizes.now writable) groups.now busy payload.now MaskGroup }
{
    if payload.len() < 2 {
        return Err(WireError::BadSize);
    }
    existing(groups, payload)?;
    if bsmp::no_operation(payload[1]) {
        return Err(WireError::Unsupported);
    }
    writes(sizes, writable, groups, payload, 2, busy)
}

// What a walk over a new group's IDs finds: whether one names no variable, whether they ascend; the next may be no less than `least`.
// This is of 16 bits, since the compiler takes 16 IDs at once, and keeps them on the stack of every packet if they are wider.
// The flags are the state of a walk without branches: no value hangs on one.
#[derive(Clone, Copy)]
struct Ids {
    unknown: bool,
    ascending: bool,
    least: u16,
}

impl Ids {
    // One walk finds both: an unknown ID counts first, wherever it stands.
    #[tactic(auto, using(crate::proofs::Ascend::look_end))]
    fn of(ids: &[u8], count: usize) -> Ids
        ensures { Looked ids.now count result }
    {
        let mut s = Ids {
            unknown: false,
            ascending: true,
            least: 0,
        };
        for id in ids {
            let n = u16::from(*id);
            s = Ids {
                unknown: s.unknown | (count <= usize::from(n)),
                ascending: s.ascending & (s.least <= n),
                least: n + 1,
            };
        }
        s
    }
}

// 30: a group to be made; its set is `sets::set_of` of the payload. Five fit.
#[tactic(auto, unfolding(bsmp::specs::Message::check, bsmp::specs::Message::line, bsmp::specs::Base::first))]
pub fn check_make(
    sizes: &[u8],
    writable: u64,
    groups: &[u64],
    payload: &[u8],
    busy: u64,
) -> Result<(), WireError>
    requires { length sizes.now ≤ 64 }
    ensures { result ≡ check (variables_only sizes.now writable) groups.now busy payload.now MakeGroup }
{
    if payload.is_empty() {
        return Err(WireError::BadSize);
    }
    if sizes.len() < payload.len() {
        return Err(WireError::BadSize);
    }
    let ids = Ids::of(payload, sizes.len());
    if ids.unknown {
        return Err(WireError::BadId);
    }
    if !ids.ascending {
        return Err(WireError::BadValue);
    }
    if 5 <= groups.len() {
        return Err(WireError::Full);
    }
    Ok(())
}

// 22 and 26: each member of the group named first, changed by its part of the payload after the front.
#[tactic(auto, using(sets::proofs::Group::group_edit))]
pub fn change(
    sizes: &[u8],
    writable: u64,
    groups: &[u64],
    values: &mut [u8],
    op: Operation,
    payload: &[u8],
    front: usize,
)
    requires sound { Sound sizes.now values.old }
    requires group_fits { GroupFits (variables_only sizes.now writable) groups.now payload.now front }
    ensures { let l = variables_only sizes.now writable in
        let members = group_members l groups.now payload.now in
        let parts = cut (map (size_of l) members) (drop front payload.now) in
        cut l.sizes values.new ≡ edited op members parts (cut l.sizes values.old) }
{
    let set = named_set(writable, groups, payload);
    members::change_members(sizes, set, values, op, payload, front);
}

// 13: the members' values.
pub fn tell(
    sizes: &[u8],
    writable: u64,
    groups: &[u64],
    values: &[u8],
    payload: &[u8],
    reply: &mut [u8],
    at: usize,
) -> usize
    requires sound { Sound sizes.now values.now }
    requires group_known { GroupKnown groups.now payload.now }
    requires at_in_bounds { at + 4099 ≤ length reply.old }
    ensures { let l = variables_only sizes.now writable in
        let members = group_members l groups.now payload.now in
        PayloadAt reply.old at (values_of (cut l.sizes values.now) members) result reply.new }
{
    let set = named_set(writable, groups, payload);
    members::read_members(sizes, set, values, reply, at)
}

// 07: the members' numbers.
pub fn show(
    sizes: &[u8],
    writable: u64,
    groups: &[u64],
    payload: &[u8],
    reply: &mut [u8],
    at: usize,
) -> usize
    requires sizes_len_bound { length sizes.now ≤ 64 }
    requires group_known { GroupKnown groups.now payload.now }
    requires at_in_bounds { at + 4099 ≤ length reply.old }
    ensures { let l = variables_only sizes.now writable in
        let members = group_members l groups.now payload.now in
        PayloadAt reply.old at (map (λ i. i.0) members) result reply.new }
{
    let set = named_set(writable, groups, payload);
    members::list_members(sizes.len(), set, reply, at)
}

// A group's byte in the list: its top bit on if it's writable, and the member count.
#[tactic(auto, using(crate::proofs::Known::marks_are), unfolding(bsmp::specs::Board::writable_group))]
fn list_byte(sizes: &[u8], writable: u64, groups: &[u64], g: GroupNumber) -> u8
    requires { (length sizes.now ≤ 64) × (g.0 < group_count groups.now) }
    ensures { let l = variables_only sizes.now writable in
        result ≡ listed (writable_group l groups.now g) (length (members l groups.now g)) }
{
    let set = sets::group_set(writable, groups, g);
    let members = sets::declared(set, sizes.len());
    let count = sets::count_marks(members);
    128 * u8::from(sets::group_writable(g, members, writable)) + count as u8
}

// 05: a byte per group.
pub fn list(sizes: &[u8], writable: u64, groups: &[u64], reply: &mut [u8], at: usize) -> usize
    requires sizes_len_bound { (length sizes.now ≤ 64) × (length groups.now ≤ 5) }
    requires at_in_bounds { at + 4099 ≤ length reply.old }
    ensures { let l = variables_only sizes.now writable in
        PayloadAt reply.old at (group_list l groups.now) result reply.new }
{
    let count = 3 + groups.len();
    for g in 0..count {
        reply[at + g] = list_byte(sizes, writable, groups, GroupNumber(g));
    }
    count
}
