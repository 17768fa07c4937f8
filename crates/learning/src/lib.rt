// What is learned by a reply: the lists taken over, whole or not at all, and an accepted 30 and 32 followed.
#![tactic(auto)]

ghost use Rattle.std.specs.Prelude.{◌≡◌, map, ◌*◌, ◌%◌, ◌≤◌, leb, ltb, length};
ghost use Rattle.bsmp.specs.Base.{every, marks_of};
ghost use Rattle.bsmp.specs.Board.{variable};
ghost use Rattle.copies.specs.Put.{put};
ghost use Rattle.asking.specs.Learned.{curves_from};
ghost use Rattle.asking.specs.Learning.{with_made, regrouped, shown_groups};
ghost use Rattle.learned.specs.Table.{held_table};
ghost use Rattle.learning.specs.Taking.{curves_taken, functions_taken, Answers, taught_by, heard_left, heard_of};

use asking::{Request, Told};
use bsmp::{GroupNumber, Refusal};
use learned::LearnedTable;

// The lists into their places, by number: each reads and writes in steps of its own.
// The sizes of list 03, each into its place.
fn take_sizes(list: &[u8], sizes: &mut [u8])
    requires { length list.now ≤ length sizes.old }
    ensures { sizes.new ≡ put sizes.old 0 (map (λ b. b % 128) list.now) }
{
    for i in 0..list.len() {
        sizes[i] = list[i] % 128;
    }
}

// The writable variables of list 03 as marks, from the last to the first.
fn marks_in(list: &[u8]) -> u64
    requires { length list.now ≤ 64 }
    ensures { result ≡ marks_of (map (leb 128) list.now) }
{
    let mut marks: u64 = 0;
    for i in (0..list.len()).rev() {
        marks = 2 * marks + u64::from(list[i] / 128);
    }
    marks
}

// The curves of list 09, three numbers each.
fn take_curves(list: &[u8], curves: &mut [u32])
    requires { 3 * length list.now ≤ 5 * length curves.old }
    ensures { curves.new ≡ put curves.old 0 (curves_taken (curves_from list.now)) }
{
    for i in 0..list.len() / 5 {
        let c = listed::curve_in(list, 5 * i);
        curves[3 * i] = c.writable;
        curves[3 * i + 1] = c.size;
        curves[3 * i + 2] = c.blocks;
    }
}

// The functions of list 0D, two numbers each.
fn take_functions(list: &[u8], functions: &mut [u8])
    requires { 2 * length list.now ≤ length functions.old }
    ensures { functions.new ≡ put functions.old 0 (functions_taken list.now) }
{
    for i in 0..list.len() {
        functions[2 * i] = list[i] / 16;
        functions[2 * i + 1] = list[i] % 16;
    }
}

// Whether each ID names one of so many variables.
fn are_known(ids: &[u8], variables: u64) -> bool
    ensures { result ≡ every (λ i. ltb i variables) ids.now }
{
    for id in ids {
        if variables <= u64::from(*id) {
            return false;
        }
    }
    true
}

// The group of these variables at a place, the next one included; it is left out where it can't be.
fn put_group(table: &mut LearnedTable, place: u64, ids: &[u8])
    ensures { let x = held_table table.old in held_table table.new ≡ with_made x (regrouped x place (map variable ids.now)) }
{
    let variables = table.variables;
    if table.groups < place || 5 <= place || 64 < variables || ids.len() == 0 {
        return;
    }
    if !are_known(ids, variables) {
        return;
    }
    table.sets[place as usize] = sets::set_of(ids);
    table.groups = table.groups.max(place + 1);
}

// The members of a group that was shown: those of 0 to 2 are known by the variables' types.
fn show_group(table: &mut LearnedTable, g: GroupNumber, ids: &[u8])
    ensures { let x = held_table table.old in held_table table.new ≡ with_made x (shown_groups x g (map variable ids.now)) }
{
    if 3 <= g.0 {
        put_group(table, (g.0 - 3) as u64, ids);
    }
}

// What an answer to a request teaches: `ids` are those of the new group that was asked for, `payload` is the answer's.
#[tactic(auto, using(crate::proofs::Taught::nothing_learned), unfolding(asking::specs::Learning::taught, asking::specs::Learning::followed, asking::specs::Reply::tells, asking::specs::Reply::wanted, asking::specs::Request::fields_of))]
fn learn(table: &mut LearnedTable, request: Request, ids: &[u8], payload: &[u8])
    requires { Answers request payload.now }
    ensures { held_table table.new ≡ taught_by (held_table table.old) request ids.now payload.now }
{
    match request {
        Request::ListVariables => {
            take_sizes(payload, &mut table.sizes);
            table.variables = payload.len() as u64;
            table.writable = marks_in(payload);
            table.groups = 0;
        }
        Request::ListGroups => table.groups = (payload.len() as u64 - 3).min(table.groups),
        Request::ShowGroup(g) => show_group(table, g, payload),
        Request::ListCurves => {
            take_curves(payload, &mut table.shapes);
            table.curves = (payload.len() / 5) as u64;
        }
        Request::ListFunctions => {
            take_functions(payload, &mut table.calls);
            table.functions = payload.len() as u64;
        }
        Request::MakeGroup => {
            let next = table.groups;
            put_group(table, next, ids);
        }
        Request::RemoveGroups => table.groups = 0,
        Request::Version
        | Request::ReadSum(_)
        | Request::ReadVariable(_)
        | Request::ReadGroup(_)
        | Request::WriteVariable(_)
        | Request::WriteGroup(_)
        | Request::MaskVariable(_, _)
        | Request::MaskGroup(_, _)
        | Request::WriteRead { .. }
        | Request::ReadBlock { .. }
        | Request::WriteBlock { .. }
        | Request::RenewSum(_)
        | Request::RunFunction(_) => {}
    }
}

// A reply to a request that went to this destination, heard: what it says, and the table after it. `bytes` are those that went with the
// request.
pub fn hear(
    table: &mut LearnedTable,
    destination: u8,
    request: Request,
    bytes: &[u8],
    reply: &[u8],
) -> Result<Told, Refusal>
    ensures { heard_left result (held_table table.new) ≡ heard_of (held_table table.old) destination request bytes.now reply.now }
{
    let told = replies::read(table, destination, request, reply)?;
    if let Told::Error(_) = told {
        return Ok(told);
    }
    learn(table, request, bytes, &reply[4..reply.len() - 1]);
    Ok(told)
}
