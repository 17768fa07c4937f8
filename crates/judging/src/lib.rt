// A message's tests: its length and SIZE, then those of its command. All 20 commands together; nothing here knows how the message came.
#![tactic(auto)]

ghost use Rattle.std.specs.Prelude.{◌≡◌, ◌≤◌, length};
ghost use Rattle.bsmp.specs.Base.{byte_at};
ghost use Rattle.bsmp.specs.Codes.{command_of};
ghost use Rattle.bsmp.specs.Message.{check, judge};
ghost use Rattle.judging.specs.Judging.{layout_in};

use bsmp::{Command, WireError};

// The definition's layout, as it is lent: sizes, writable marks, and the flat numbers of curves and functions.
#[derive(Clone, Copy)]
pub struct Layout<'a> {
    pub sizes: &'a [u8],
    pub writable: u64,
    pub curves: &'a [u32],
    pub functions: &'a [u8],
}

// What a board lends for a message to change: the stores, the blocks' lengths and the curves' sums. The layout and the made groups are
// only read, and are lent beside it: one struct of all would hide in a signature what is changed.
#[derive(Drop)]
pub struct Stores<'a> {
    pub values: &'a mut [u8],
    pub blocks: &'a mut [u8],
    pub lengths: &'a mut [u16],
    pub sums: &'a mut [u8],
}

// The first error of the command's tests.
#[tactic(auto, using(crate::proofs::Judging::of_command), unfolding(bsmp::specs::Base::first, bsmp::specs::Message::check, bsmp::specs::Message::line, bsmp::specs::Message::writes_variable, bsmp::specs::Message::writes_group, bsmp::specs::Board::members, bsmp::specs::Board::group_bytes, bsmp::specs::Board::writable_group))]
fn check(
    command: Command,
    layout: &Layout,
    groups: &[u64],
    payload: &[u8],
    busy: u64,
) -> Result<(), WireError>
    requires { (length layout.now.sizes.now ≤ 64) × (length groups.now ≤ 5) }
    ensures { result ≡ check (layout_in layout.now) groups.now busy payload.now command }
{
    let sizes = layout.sizes;
    let writable = layout.writable;
    match command {
        Command::ShowGroup => groups::check_show(sizes, writable, groups, payload, busy),
        Command::ReadVariable => variables::check_read(sizes, writable, payload, busy),
        Command::ReadGroup => groups::check_read(sizes, writable, groups, payload, busy),
        Command::WriteVariable => variables::check_write(sizes, writable, payload, busy),
        Command::WriteGroup => groups::check_write(sizes, writable, groups, payload, busy),
        Command::MaskVariable => variables::check_mask(sizes, writable, payload, busy),
        Command::MaskGroup => groups::check_mask(sizes, writable, groups, payload, busy),
        Command::WriteRead => variables::check_write_read(sizes, writable, payload, busy),
        Command::MakeGroup => groups::check_make(sizes, writable, groups, payload, busy),
        Command::ReadBlock => curves::check_read(layout.curves, payload),
        Command::WriteBlock => curves::check_write(layout.curves, payload),
        Command::ReadSum | Command::RenewSum => curves::check_sum(layout.curves, payload),
        Command::RunFunction => functions::check_run(layout.functions, payload),
        Command::Version
        | Command::ListVariables
        | Command::ListGroups
        | Command::ListCurves
        | Command::ListFunctions
        | Command::RemoveGroups => parts::check_empty(payload),
        Command::Unknown => Err(WireError::Unsupported),
    }
}

// A message's command; of an empty message, which its tests refuse, that of byte 00.
#[tactic(auto, using(crate::proofs::Judging::none_named))]
pub fn command_of(message: &[u8]) -> Command
    ensures { result ≡ command_of (byte_at message.now 0) }
{
    if message.is_empty() {
        return Command::from(0);
    }
    Command::from(message[0])
}

// A message's length and SIZE, then its command's tests.
#[tactic(auto, using(crate::proofs::Judging::judge_short, crate::proofs::Judging::judge_size, crate::proofs::Judging::judge_rest))]
pub fn judge(
    command: Command,
    layout: &Layout,
    groups: &[u64],
    message: &[u8],
    busy: u64,
) -> Result<(), WireError>
    requires sizes_len_bound { (length layout.now.sizes.now ≤ 64) × (length groups.now ≤ 5) }
    requires command_value { command ≡ command_of (byte_at message.now 0) }
    ensures { result ≡ judge (layout_in layout.now) groups.now busy message.now }
{
    if message.len() < 3 {
        return Err(WireError::Malformed);
    }
    let size = parts::word(message[1], message[2]);
    if size != message.len() - 3 {
        return Err(WireError::Malformed);
    }
    check(command, layout, groups, &message[3..], busy)
}
