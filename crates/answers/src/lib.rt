// What a command that passed its tests is answered, out of the state after it.
#![tactic(auto)]

ghost use Rattle.std.specs.Prelude.{◌≡◌, true, [], ◌∷◌, ◌+◌, ◌≤◌, ◌<◌, length, drop};
ghost use Rattle.bsmp.specs.Message.{function_at, line, runs, spoken};
ghost use Rattle.parts.specs.Parts.{Passed, PayloadAt};
ghost use Rattle.bsmp.specs.Store.{held};
ghost use Rattle.judging.specs.Judging.{layout_in, SoundBoard};
ghost use Rattle.answers.specs.Answers.{lent_kept, spoken_of, Spoke};
ghost use Rattle.answers.specs.declared.Spoken.TheVariants.{Reply};

use bsmp::{Command, FunctionNumber};
use judging::Layout;

// What an answer is told out of: the stores, the blocks' lengths and the curves' sums, lent to be read, so that who may only read them can ask too.
#[derive(Clone, Copy)]
pub struct Kept<'a> {
    pub values: &'a [u8],
    pub blocks: &'a [u8],
    pub lengths: &'a [u16],
    pub sums: &'a [u8],
}

// What is said to a message: a reply whose payload stands in the buffer, that a function is to be run, or, where no answer is due, nothing.
// No Option stands around the first two: whoever ends a call tells all three apart in one match.
#[derive(Clone, Copy)]
pub enum Spoken {
    Reply {
        code: u8,
        size: usize,
    },
    Run {
        function: FunctionNumber,
        input: usize,
    },
    Nothing,
}

impl Spoken {
    // A reply in one line where the variant's fields would take four.
    pub fn of(code: u8, size: usize) -> Spoken
        ensures { result ≡ Reply code size }
    {
        Spoken::Reply { code, size }
    }
}

#[tactic(auto, using(crate::proofs::Said::version_told))]
fn tell_version(reply: &mut [u8], at: usize) -> usize
    requires { at + 4099 ≤ length reply.old }
    ensures { PayloadAt reply.old at (2 ∷ 20 ∷ 0 ∷ []) result reply.new }
{
    reply[at] = 2;
    reply[at + 1] = 20;
    reply[at + 2] = 0;
    3
}

fn run(payload: &[u8]) -> Spoken
    requires { 0 < length payload.now }
    ensures { result ≡ spoken_of true (runs (function_at payload.now 0) (drop 1 payload.now)) }
{
    Spoken::Run {
        function: parts::function_at(payload, 0),
        input: payload.len() - 1,
    }
}

// What a command that passed is answered, out of the state after it; a payload goes into the reply from `at` on. All below write at a place of the
// whole buffer, as what they promise says it (`PayloadAt`), so reply and place go as two.
#[tactic(auto, using(crate::proofs::Answers::answer_told, crate::proofs::Answers::answer_done, crate::proofs::Answers::answer_run), unfolding(bsmp::specs::Message::line, bsmp::specs::Message::spoken, bsmp::specs::Message::variable_list, bsmp::specs::Message::group_list, bsmp::specs::Message::curve_list, bsmp::specs::Message::function_list, bsmp::specs::Board::members, bsmp::specs::Board::writable_group))]
pub fn answer(
    command: Command,
    layout: &Layout,
    groups: &[u64],
    kept: &Kept,
    payload: &[u8],
    reply: &mut [u8],
    at: usize,
) -> Spoken
    requires sound_board { SoundBoard (layout_in layout.now) (lent_kept kept.now groups.now) }
    requires passed { Passed (layout_in layout.now) groups.now payload.now command }
    requires at_in_bounds { at + 4099 ≤ length reply.old }
    ensures { let l = layout_in layout.now in
        let x = lent_kept kept.now groups.now in
        let said = spoken (line l x.groups payload.now command).answer (held l x) in
        Spoke true said reply.old at result reply.new }
{
    let sizes = layout.sizes;
    let writable = layout.writable;
    match command {
        Command::Version => Spoken::of(0x01, tell_version(reply, at)),
        Command::ListVariables => Spoken::of(0x03, variables::list(sizes, writable, reply, at)),
        Command::ListGroups => Spoken::of(0x05, groups::list(sizes, writable, groups, reply, at)),
        Command::ShowGroup => {
            let size = groups::show(sizes, writable, groups, payload, reply, at);
            Spoken::of(0x07, size)
        }
        Command::ListCurves => Spoken::of(0x09, curves::list(layout.curves, reply, at)),
        Command::ListFunctions => Spoken::of(0x0D, functions::list(layout.functions, reply, at)),
        Command::ReadVariable => {
            let size = variables::tell(sizes, kept.values, payload, 0, reply, at);
            Spoken::of(0x11, size)
        }
        Command::ReadGroup => {
            let size = groups::tell(sizes, writable, groups, kept.values, payload, reply, at);
            Spoken::of(0x13, size)
        }
        Command::WriteRead => {
            let size = variables::tell(sizes, kept.values, payload, 1, reply, at);
            Spoken::of(0x11, size)
        }
        Command::ReadBlock => {
            let size = curves::tell(layout.curves, kept.blocks, kept.lengths, payload, reply, at);
            Spoken::of(0x41, size)
        }
        Command::ReadSum => Spoken::of(0x0B, sums::tell_sum(kept.sums, payload, reply, at)),
        Command::RunFunction => run(payload),
        Command::WriteVariable
        | Command::WriteGroup
        | Command::MaskVariable
        | Command::MaskGroup
        | Command::MakeGroup
        | Command::RemoveGroups
        | Command::WriteBlock
        | Command::RenewSum
        | Command::Unknown => Spoken::of(0xE0, 0),
    }
}
