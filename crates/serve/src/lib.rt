// A message: judged, carried out and answered. Nothing here knows of boards that can't be used, nor of packets.
#![tactic(auto)]

ghost use Rattle.std.specs.Prelude.{◌≡◌, true, ◌+◌, ◌≤◌, ◌<◌, length};
ghost use Rattle.bsmp.specs.Base.{byte_at};
ghost use Rattle.bsmp.specs.Codes.{command_of};
ghost use Rattle.bsmp.specs.Message.{asked, judge, said};
ghost use Rattle.bsmp.specs.Store.{held};
ghost use Rattle.bsmp.specs.declared.Command.TheVariants.{RunFunction};
ghost use Rattle.judging.specs.Judging.{layout_in, lent_in, SameStores, SoundBoard};
ghost use Rattle.answers.specs.Answers.{Spoke};
ghost use Rattle.serve.specs.Serve.{looks_at_types, SoundTypes, MarksFor, columns_in, CarriedOut, Quiet, Unanswered, Fulfilled, ServedAs};

use answers::{Kept, Spoken};
use bsmp::{Command, WireError};
use changes::Regroup;
use judging::{Layout, Stores};

// What a board lends for a message to read: the variables' sizes and types, and the flat numbers of curves and functions.
#[derive(Clone, Copy)]
pub struct Columns<'a> {
    pub sizes: &'a [u8],
    pub types: &'a [u8],
    pub curves: &'a [u32],
    pub functions: &'a [u8],
}

// A message's command, and how it was judged on a board's layout and made groups under busy marks.
#[derive(Clone, Copy)]
struct Verdict<'a> {
    command: Command,
    check: Result<(), WireError>,
    layout: &'a Layout<'a>,
    groups: &'a [u64],
    message: &'a [u8],
    busy: u64,
    ghost named: { command ≡ command_of (byte_at message.now 0) },
    ghost judged: { check ≡ judge (layout_in layout.now) groups.now busy message.now },
}

// What is said to a message, and what it makes of the made groups.
#[derive(Clone, Copy)]
pub struct Served {
    pub said: Spoken,
    pub regroup: Regroup,
}

// Whether a command looks at which variables are writable.
fn looks_at_types(command: Command) -> bool
    ensures { result ≡ looks_at_types command }
{
    matches!(
        command,
        Command::ListVariables
            | Command::ListGroups
            | Command::ShowGroup
            | Command::ReadGroup
            | Command::WriteVariable
            | Command::WriteGroup
            | Command::MaskVariable
            | Command::MaskGroup
            | Command::WriteRead
    )
}

// The writable variables as marks, for a command that looks at them: to make them takes a walk over all variables.
#[tactic(auto, using(crate::proofs::Types::types_few, crate::proofs::Types::types_each, crate::proofs::Types::marks_made, crate::proofs::Types::marks_spared))]
fn marks_for(command: Command, types: &[u8]) -> u64
    requires { SoundTypes types.now }
    ensures { MarksFor command types.now result }
{
    if looks_at_types(command) {
        return records::marks_of(types);
    }
    0
}

// Carries out a message if it passed its tests. That the board is sound is said of layout and stores together, here and below, so neither of the two
// types can say it.
#[tactic(auto, using(judging::proofs::Judging::message_long))]
fn carry_out(verdict: &Verdict, stores: &mut Stores) -> Regroup
    requires { SoundBoard (layout_in verdict.now.layout.now) (lent_in stores.old verdict.now.groups.now) }
    ensures same_stores { SameStores stores.old stores.new }
    ensures carried_out { let l = layout_in verdict.now.layout.now in
        let x = lent_in stores.old verdict.now.groups.now in
        let y = lent_in stores.new verdict.now.groups.now in
        CarriedOut l verdict.now.message.now verdict.now.check x result y }
{
    let message = verdict.message;
    match verdict.check {
        Ok(()) => changes::change(
            verdict.command,
            verdict.layout,
            verdict.groups,
            stores,
            &message[3..],
        ),
        Err(_) => Regroup::Keep,
    }
}

// What is said to a message where an answer is due, out of the state after it.
#[tactic(auto, using(judging::proofs::Judging::message_long))]
fn respond(verdict: &Verdict, stores: &Stores, reply: &mut [u8], at: usize) -> Spoken
    requires { SoundBoard (layout_in verdict.now.layout.now) (lent_in stores.now verdict.now.groups.now) × (at + 4099 ≤ length reply.old) }
    ensures { let l = layout_in verdict.now.layout.now in
        let x = lent_in stores.now verdict.now.groups.now in
        let says = said (asked l x.groups verdict.now.message.now) verdict.now.check (held l x) in
        Spoke true says reply.old at result reply.new }
{
    let message = verdict.message;
    match verdict.check {
        Ok(()) => {
            let kept = Kept {
                values: stores.values,
                blocks: stores.blocks,
                lengths: stores.lengths,
                sums: stores.sums,
            };
            answers::answer(
                verdict.command,
                verdict.layout,
                verdict.groups,
                &kept,
                &message[3..],
                reply,
                at,
            )
        }
        Err(e) => Spoken::of(u8::from(e), 0),
    }
}

// Where no answer is due only a function to be run is told of.
#[tactic(auto, using(crate::proofs::Silence::run_long, crate::proofs::Silence::run_input, crate::proofs::Silence::quiet_run, crate::proofs::Silence::quiet_nothing), unfolding(bsmp::specs::Message::line, bsmp::specs::Message::spoken))]
fn quiet(command: Command, message: &[u8]) -> Spoken
    requires { command ≡ RunFunction → 3 < length message.now }
    ensures { Quiet command message.now result }
{
    match command {
        Command::RunFunction => Spoken::Run {
            function: parts::function_at(message, 3),
            input: message.len() - 4,
        },
        Command::Version
        | Command::ListVariables
        | Command::ListGroups
        | Command::ShowGroup
        | Command::ListCurves
        | Command::ReadSum
        | Command::ListFunctions
        | Command::ReadVariable
        | Command::ReadGroup
        | Command::WriteVariable
        | Command::WriteGroup
        | Command::MaskVariable
        | Command::MaskGroup
        | Command::WriteRead
        | Command::MakeGroup
        | Command::RemoveGroups
        | Command::ReadBlock
        | Command::WriteBlock
        | Command::RenewSum
        | Command::Unknown => Spoken::Nothing,
    }
}

fn unanswered(verdict: &Verdict) -> Spoken
    ensures { Unanswered verdict.now.check verdict.now.message.now result }
{
    match verdict.check {
        Ok(()) => quiet(verdict.command, verdict.message),
        Err(_) => Spoken::Nothing,
    }
}

// What is said to a message, whether or not an answer is due: the packet says so, so it is a flag here, and no step that a caller picks.
#[tactic(auto, using(crate::proofs::Serving::said_due, crate::proofs::Serving::said_quiet))]
fn say(due: bool, verdict: &Verdict, stores: &Stores, reply: &mut [u8], at: usize) -> Spoken
    requires { SoundBoard (layout_in verdict.now.layout.now) (lent_in stores.now verdict.now.groups.now) × (at + 4099 ≤ length reply.old) }
    ensures { let l = layout_in verdict.now.layout.now in
        let x = lent_in stores.now verdict.now.groups.now in
        let says = said (asked l x.groups verdict.now.message.now) verdict.now.check (held l x) in
        Spoke due says reply.old at result reply.new }
{
    if due {
        return respond(verdict, stores, reply, at);
    }
    unanswered(verdict)
}

// A message that was judged is carried out, and then answered: what is said is said out of what it leaves.
#[tactic(auto, using(crate::proofs::Serving::fulfilled))]
fn fulfil(due: bool, verdict: &Verdict, stores: &mut Stores, reply: &mut [u8], at: usize) -> Served
    requires { SoundBoard (layout_in verdict.now.layout.now) (lent_in stores.old verdict.now.groups.now) × (at + 4099 ≤ length reply.old) }
    ensures same_stores { SameStores stores.old stores.new }
    ensures fulfilled { let l = layout_in verdict.now.layout.now in
        let x = lent_in stores.old verdict.now.groups.now in
        let y = lent_in stores.new verdict.now.groups.now in
        let m = verdict.now.message.now in
        Fulfilled due l m verdict.now.check x reply.old at result.said result.regroup reply.new y }
{
    let regroup = carry_out(verdict, stores);
    let said = say(due, verdict, stores, reply, at);
    Served { said, regroup }
}

// A message on a usable board, over what is lent. An answer's payload goes into the reply from `at` on.
pub fn serve(
    due: bool,
    columns: &Columns,
    groups: &[u64],
    stores: &mut Stores,
    message: &[u8],
    busy: u64,
    reply: &mut [u8],
    at: usize,
) -> Served
    requires fact { SoundBoard (columns_in columns.now) (lent_in stores.old groups.now) × SoundTypes columns.now.types.now }
    requires at_in_bounds { at + 4099 ≤ length reply.old }
    ensures same_stores { SameStores stores.old stores.new }
    ensures served { let l = columns_in columns.now in
        let x = lent_in stores.old groups.now in
        let y = lent_in stores.new groups.now in
        ServedAs due l busy message.now x reply.old at result.said result.regroup reply.new y }
{
    let command = judging::command_of(message);
    let layout = Layout {
        sizes: columns.sizes,
        writable: marks_for(command, columns.types),
        curves: columns.curves,
        functions: columns.functions,
    };
    let check = judging::judge(command, &layout, groups, message, busy);
    let verdict = Verdict {
        command,
        check,
        layout: &layout,
        groups,
        message,
        busy,
    };
    fulfil(due, &verdict, stores, reply, at)
}
