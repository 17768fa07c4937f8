// The commands of one variable: 10 read, 20 write, 24 mask, 28 write and read, 02 list; and a board store.
#![tactic(auto)]

ghost use Rattle.std.specs.Prelude.{◌≡◌, true, false, cond, ltb, Ok, Err, [], ◌∷◌, ◌++◌, ◌+◌, ◌≤◌, ◌<◌, length, drop};
ghost use Rattle.bsmp.specs.Base.{first, every, cut, byte_at};
ghost use Rattle.bsmp.specs.Board.{usable_size};
ghost use Rattle.bsmp.specs.Message.{variable_at, writes_variable, last_tests, listed, variable_list, check, edited, values_of};
ghost use Rattle.bsmp.specs.Codes.{Pass, Fail};
ghost use Rattle.bsmp.specs.declared.Command.TheVariants.{ReadVariable, WriteVariable, MaskVariable, WriteRead};
ghost use Rattle.bsmp.specs.declared.WireError.TheVariants.{BadId};
ghost use Rattle.bsmp.specs.declared.Operation.TheVariants.{Replace};
ghost use Rattle.sets.specs.Members.{size_at};
ghost use Rattle.sets.specs.Promises.{Sound};
ghost use Rattle.parts.specs.Parts.{variables_only, PayloadAt};
ghost use Rattle.variables.specs.Fits.{OneFits};

use bsmp::{Operation, VariableNumber, WireError};

fn size_of(sizes: &[u8], i: VariableNumber) -> usize
    requires { i.0 < length sizes.now }
    ensures { (result ≡ size_at sizes.now i) × (result < 256) }
{
    usize::from(sizes[i.0])
}

// The variable that the payload's byte at a place names, if it exists.
fn existing(sizes: &[u8], payload: &[u8], at: usize) -> Result<VariableNumber, WireError>
    requires { at < length payload.now }
    ensures { let i = variable_at payload.now at in
        result ≡ cond (ltb i.0 (length sizes.now)) (Ok i) (Err BadId) }
{
    let i = parts::variable_at(payload, at);
    if sizes.len() <= i.0 {
        return Err(WireError::BadId);
    }
    Ok(i)
}

// The tests of a write that come after its front: variable i, named first, gets the bytes behind it; busy is whether a variable that the
// command touches is.
#[tactic(auto, unfolding(bsmp::specs::Message::writes_variable, bsmp::specs::Base::first))]
fn writes(
    sizes: &[u8],
    writable: u64,
    payload: &[u8],
    i: VariableNumber,
    front: usize,
    busy: bool,
) -> Result<(), WireError>
    requires { (length sizes.now ≤ 64) × (i ≡ variable_at payload.now 0) × (i.0 < length sizes.now) × (front ≤ 2) }
    ensures { let l = variables_only sizes.now writable in
        result ≡ first (writes_variable l payload.now front ++ last_tests busy false) Fail Pass }
{
    let is_whole = payload.len() == front + size_of(sizes, i);
    let is_writable = sets::is_marked(writable, i);
    if !is_whole {
        return Err(WireError::BadSize);
    }
    if !is_writable {
        return Err(WireError::ReadOnly);
    }
    if busy {
        return Err(WireError::Busy);
    }
    Ok(())
}

// A check gives the first error of its command's tests, or a pass. All take the same, so that a new rule moves a body only; sizes and marks one by
// one, for the stack's sake, as in `groups`.
#[tactic(auto, unfolding(bsmp::specs::Message::check, bsmp::specs::Message::line, bsmp::specs::Base::first))]
pub fn check_read(sizes: &[u8], writable: u64, payload: &[u8], busy: u64) -> Result<(), WireError>
    requires { length sizes.now ≤ 64 }
    ensures { result ≡ check (variables_only sizes.now writable) [] busy payload.now ReadVariable }
{
    if payload.len() != 1 {
        return Err(WireError::BadSize);
    }
    let i = existing(sizes, payload, 0)?;
    if sets::is_marked(busy, i) {
        return Err(WireError::Busy);
    }
    Ok(())
}

#[tactic(auto, unfolding(bsmp::specs::Message::check, bsmp::specs::Message::line, bsmp::specs::Base::first))]
pub fn check_write(sizes: &[u8], writable: u64, payload: &[u8], busy: u64) -> Result<(), WireError>
    requires { length sizes.now ≤ 64 }
    ensures { result ≡ check (variables_only sizes.now writable) [] busy payload.now WriteVariable }
{
    if payload.is_empty() {
        return Err(WireError::BadSize);
    }
    let i = existing(sizes, payload, 0)?;
    writes(sizes, writable, payload, i, 1, sets::is_marked(busy, i))
}

#[tactic(auto, unfolding(bsmp::specs::Message::check, bsmp::specs::Message::line, bsmp::specs::Base::first))]
pub fn check_mask(sizes: &[u8], writable: u64, payload: &[u8], busy: u64) -> Result<(), WireError>
    requires { length sizes.now ≤ 64 }
    ensures { result ≡ check (variables_only sizes.now writable) [] busy payload.now MaskVariable }
{
    if payload.len() < 2 {
        return Err(WireError::BadSize);
    }
    let i = existing(sizes, payload, 0)?;
    if bsmp::no_operation(payload[1]) {
        return Err(WireError::Unsupported);
    }
    writes(sizes, writable, payload, i, 2, sets::is_marked(busy, i))
}

#[tactic(auto, unfolding(bsmp::specs::Message::check, bsmp::specs::Message::line, bsmp::specs::Base::first))]
pub fn check_write_read(
    sizes: &[u8],
    writable: u64,
    payload: &[u8],
    busy: u64,
) -> Result<(), WireError>
    requires { length sizes.now ≤ 64 }
    ensures { result ≡ check (variables_only sizes.now writable) [] busy payload.now WriteRead }
{
    if payload.len() < 2 {
        return Err(WireError::BadSize);
    }
    let written = existing(sizes, payload, 0)?;
    let read = existing(sizes, payload, 1)?;
    writes(
        sizes,
        writable,
        payload,
        written,
        2,
        sets::is_marked(busy, written) | sets::is_marked(busy, read),
    )
}

// Variable i changed by the bytes from `front` on.
fn change_one(
    sizes: &[u8],
    values: &mut [u8],
    i: VariableNumber,
    op: Operation,
    bytes: &[u8],
    front: usize,
)
    requires sound { Sound sizes.now values.old }
    requires i_in_bounds { (i.0 < length sizes.now) × (length bytes.now ≡ front + size_at sizes.now i) }
    ensures { let sizes = sizes.now in
        cut sizes values.new ≡ edited op (i ∷ []) (drop front bytes.now ∷ []) (cut sizes values.old) }
{
    let at = lists::offset(sizes, i.0);
    lists::change_value(values, at, size_of(sizes, i), op, bytes, front);
}

// The variable named first changed by the bytes behind the front: 20, 24, 28.
pub fn change(sizes: &[u8], values: &mut [u8], op: Operation, payload: &[u8], front: usize)
    requires sound { Sound sizes.now values.old }
    requires one_fits { OneFits sizes.now payload.now front }
    ensures { let sizes = sizes.now in
        let payload = payload.now in
        cut sizes values.new ≡ edited op (variable_at payload 0 ∷ []) (drop front payload ∷ []) (cut sizes values.old) }
{
    change_one(
        sizes,
        values,
        parts::variable_at(payload, 0),
        op,
        payload,
        front,
    );
}

// A board store: all of variable i replaced.
pub fn store(sizes: &[u8], values: &mut [u8], i: VariableNumber, bytes: &[u8])
    requires sound { Sound sizes.now values.old }
    requires i_in_bounds { (i.0 < length sizes.now) × (length bytes.now ≡ size_at sizes.now i) }
    ensures { let sizes = sizes.now in
        cut sizes values.new ≡ edited Replace (i ∷ []) (bytes.now ∷ []) (cut sizes values.old) }
{
    change_one(sizes, values, i, Operation::Replace, bytes, 0);
}

// The value of the variable that payload byte j names, into the reply from `at` on; answers its length.
pub fn tell(
    sizes: &[u8],
    values: &[u8],
    payload: &[u8],
    j: usize,
    reply: &mut [u8],
    at: usize,
) -> usize
    requires sound { Sound sizes.now values.now }
    requires j_in_bounds { (j < length payload.now) × (byte_at payload.now j < length sizes.now) × (at + 4099 ≤ length reply.old) }
    ensures { let value = values_of (cut sizes.now values.now) (variable_at payload.now j ∷ []) in
        PayloadAt reply.old at value result reply.new }
{
    let i = parts::variable_at(payload, j);
    let from = lists::offset(sizes, i.0);
    let n = size_of(sizes, i);
    copies::read_value(values, from, n, reply, at);
    n
}

fn list_byte(writable: bool, size: u8) -> u8
    requires { size ≤ 127 }
    ensures { result ≡ listed writable size }
{
    128 * u8::from(writable) + size
}

// A byte per variable into the reply from `at` on, top bit 1 if writable, low seven the size; answers how many they are.
pub fn list(sizes: &[u8], writable: u64, reply: &mut [u8], at: usize) -> usize
    requires { (length sizes.now ≤ 64) × (every usable_size sizes.now ≡ true) × (at + 4099 ≤ length reply.old) }
    ensures { PayloadAt reply.old at (variable_list (variables_only sizes.now writable)) result reply.new }
{
    for (i, size) in sizes.iter().enumerate() {
        reply[at + i] = list_byte(sets::is_marked(writable, VariableNumber(i)), *size);
    }
    sizes.len()
}
