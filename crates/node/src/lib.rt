// The work of a packet's entry, over what is lent: every board, packet and buffer is taken, and bad ones are refused.
#![tactic(auto)]

ghost use Rattle.std.specs.Prelude.{◌≡◌, true, ◌≤◌, length};
ghost use Rattle.bsmp.specs.Board.{layout, usable};
ghost use Rattle.bsmp.specs.Packet.{message, served, packet};
ghost use Rattle.bsmp.specs.Store.{held};
ghost use Rattle.records.specs.Lending.{groups_of, table_of, lent};
ghost use Rattle.judging.specs.Judging.{lent_in, SameStores};
ghost use Rattle.changes.specs.Changes.{regrouped};
ghost use Rattle.wire.specs.Opening.{placed};
ghost use Rattle.node.specs.Promise.{table_with, packet_left, packet_left_of, ended, made_of, Fits, Closable, Closed, EndsAs, CarriedAs};

use answers::Spoken;
use bsmp::{Outcome, Refusal};
use changes::Regroup;
use judging::Stores;
use records::{Board, Groups, Records};
use serve::Columns;

// How a packet's message ended, and what it makes of the made groups.
#[derive(Clone, Copy)]
struct Received {
    outcome: Outcome,
    regroup: Regroup,
}

// The group table after a message. This alone writes into it.
fn regroup(groups: &mut Groups, r: Regroup)
    requires { Fits r groups.old }
    ensures { groups.new ≡ table_with (regrouped r (groups_of groups.old)) groups.old }
{
    match r {
        Regroup::Keep => {}
        Regroup::Make(members) => groups.create(members),
        Regroup::Remove => groups.remove(),
    }
}

// What is said to a message, closed in its packet; or the function that is to be run; or silence. Whether an answer is due is what the packet says.
fn close(due: bool, said: Spoken, reply: &mut [u8]) -> Outcome
    requires { Closable said reply.old }
    ensures { Closed due said reply.old result reply.new }
{
    match said {
        Spoken::Reply { code, size } => Outcome::Reply(wire::finish(reply, code, size)),
        Spoken::Run { function, input } => Outcome::Run {
            function,
            input,
            due,
        },
        Spoken::Nothing => Outcome::Silence,
    }
}

// The message of a packet on a usable board, served and closed in its packet. What is lent to read comes one by one: `Board` has the stores too,
// which are changed here.
fn answer(
    due: bool,
    records: &Records,
    curves: &[u32],
    functions: &[u8],
    groups: &Groups,
    stores: &mut Stores,
    busy: u64,
    request: &[u8],
    reply: &mut [u8],
) -> Received
    requires fact { let t = table_of records.now curves.now functions.now in
        usable t (held (layout t) (lent_in stores.old (groups_of groups.now))) ≡ true }
    requires in_bounds { (2 ≤ length request.now) × (4104 ≤ length reply.old) }
    ensures same_stores { SameStores stores.old stores.new }
    ensures ends { let l = layout (table_of records.now curves.now functions.now) in
        let x = lent_in stores.old (groups_of groups.now) in
        let y = lent_in stores.new (groups_of groups.now) in
        let meant = served l busy due (message request.now) (held l x) in
        EndsAs meant l reply.old result.outcome result.regroup reply.new y }
{
    let count = records.count;
    let columns = Columns {
        sizes: &records.sizes[..count],
        types: &records.writable[..count],
        curves,
        functions,
    };
    let sets = &groups.sets[..groups.count as usize];
    let message = &request[1..request.len() - 1];
    let served = serve::serve(due, &columns, sets, stores, message, busy, reply, 4);
    let regroup = served.regroup;
    let outcome = close(due, served.said, reply);
    Received { outcome, regroup }
}

// A packet on a board that was tested, before its stores were lent to be changed. Own address, multicast byte and busy marks are used here only.
fn receive(
    tested: bool,
    records: &Records,
    curves: &[u32],
    functions: &[u8],
    groups: &Groups,
    own: u8,
    multicast: u8,
    busy: u64,
    stores: &mut Stores,
    request: &[u8],
    reply: &mut [u8],
) -> Result<Received, Refusal>
    requires { let t = table_of records.now curves.now functions.now in
        tested ≡ usable t (held (layout t) (lent_in stores.old (groups_of groups.now))) }
    ensures same_stores { SameStores stores.old stores.new }
    ensures carried { let t = table_of records.now curves.now functions.now in
        let x = lent_in stores.old (groups_of groups.now) in
        let y = lent_in stores.new (groups_of groups.now) in
        CarriedAs t (placed own multicast) busy request.now x reply.old (ended result) (made_of result) reply.new y }
{
    if !tested {
        return Err(Refusal::BoardUnusable);
    }
    let due = wire::open(request, own, multicast, reply.len())?;
    let received = answer(
        due, records, curves, functions, groups, stores, busy, request, reply,
    );
    Ok(received)
}

// Any packet, on any board. What is lent comes one by one, as the C interface lends it.
pub fn packet(
    records: &Records,
    curves: &[u32],
    functions: &[u8],
    groups: &mut Groups,
    own: u8,
    multicast: u8,
    busy: u64,
    values: &mut [u8],
    blocks: &mut [u8],
    lengths: &mut [u16],
    sums: &mut [u8],
    request: &[u8],
    reply: &mut [u8],
) -> Outcome
    ensures { let t = table_of records.now curves.now functions.now in
        let s = held (layout t) (lent values.old blocks.old lengths.old sums.old (groups_of groups.old)) in
        let meant = packet t (placed own multicast) busy (length reply.old) request.now s in
        packet_left result groups.new reply.new values.new blocks.new lengths.new sums.new
        ≡ packet_left_of meant reply.old groups.old }
{
    // read here, since of a table that is read it is known how many places it has
    let _made = groups.count;
    let board = Board {
        records,
        curves,
        functions,
        groups,
        values,
        blocks,
        lengths,
        sums,
    };
    let tested = boards::quick_board(&board);
    let mut stores = Stores {
        values,
        blocks,
        lengths,
        sums,
    };
    let received = receive(
        tested,
        records,
        curves,
        functions,
        groups,
        own,
        multicast,
        busy,
        &mut stores,
        request,
        reply,
    );
    match received {
        Ok(received) => {
            regroup(groups, received.regroup);
            received.outcome
        }
        Err(refusal) => Outcome::Refused(refusal),
    }
}
