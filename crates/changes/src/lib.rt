// What a command that passed its tests changes in the stores, the lengths and the sums, and what it makes of the made groups.
#![tactic(auto)]

ghost use Rattle.std.specs.Prelude.{◌≡◌, [], ◌∷◌, drop};
ghost use Rattle.bsmp.specs.Base.{cut};
ghost use Rattle.bsmp.specs.Message.{variable_at, line, edited};
ghost use Rattle.sets.specs.Promises.{Sound};
ghost use Rattle.parts.specs.Parts.{Passed};
ghost use Rattle.judging.specs.Judging.{layout_in, lent_in, SameStores, SoundBoard};
ghost use Rattle.variables.specs.Fits.{OneFits};
ghost use Rattle.changes.specs.Changes.{removal, ChangedBy};
ghost use Rattle.changes.specs.declared.Regroup.TheVariants.{Keep};

use bsmp::{Command, Operation};
use judging::{Layout, Stores};

// What a message makes of the made groups. Where none are made there are none to remove, and they are kept.
#[derive(Clone, Copy)]
pub enum Regroup {
    Keep,
    Make(u64),
    Remove,
}

// All made groups are removed.
#[tactic(auto, using(crate::proofs::Changes::none_removed, crate::proofs::Changes::all_removed))]
fn removal(groups: &[u64]) -> Regroup
    ensures { result ≡ removal groups.now }
{
    if groups.len() == 0 {
        return Regroup::Keep;
    }
    Regroup::Remove
}

// Operation, payload and front go as three, here and in `variables` and `groups`: 01's row of the command fixes two of them.
// The variable named first is changed by the bytes behind the front; the made groups stay.
fn change_one(
    sizes: &[u8],
    values: &mut [u8],
    op: Operation,
    payload: &[u8],
    front: usize,
) -> Regroup
    requires sound { Sound sizes.now values.old }
    requires one_fits { OneFits sizes.now payload.now front }
    ensures { let sizes = sizes.now in
        let bytes = drop front payload.now in
        let named = variable_at payload.now 0 in
        (result ≡ Keep) × (cut sizes values.new ≡ edited op (named ∷ []) (bytes ∷ []) (cut sizes values.old)) }
{
    variables::change(sizes, values, op, payload, front);
    Regroup::Keep
}

// Carries out a command that passed its tests: changes the stores, the lengths and the sums, and tells what becomes of the made groups.
#[tactic(auto, unfolding(bsmp::specs::Message::line, bsmp::specs::Message::after))]
pub fn change(
    command: Command,
    layout: &Layout,
    groups: &[u64],
    stores: &mut Stores,
    payload: &[u8],
) -> Regroup
    requires sound_board { SoundBoard (layout_in layout.now) (lent_in stores.old groups.now) }
    requires passed { Passed (layout_in layout.now) groups.now payload.now command }
    ensures same_stores { SameStores stores.old stores.new }
    ensures changed { let l = layout_in layout.now in
        let x = lent_in stores.old groups.now in
        let y = lent_in stores.new groups.now in
        ChangedBy l x (line l x.groups payload.now command).change result y }
{
    let sizes = layout.sizes;
    let writable = layout.writable;
    match command {
        Command::WriteVariable => {
            change_one(sizes, stores.values, Operation::Replace, payload, 1)
        }
        Command::WriteGroup => {
            let op = Operation::Replace;
            groups::change(sizes, writable, groups, stores.values, op, payload, 1);
            Regroup::Keep
        }
        Command::MaskVariable => {
            let op = Operation::from(payload[1]);
            change_one(sizes, stores.values, op, payload, 2)
        }
        Command::MaskGroup => {
            let op = Operation::from(payload[1]);
            groups::change(sizes, writable, groups, stores.values, op, payload, 2);
            Regroup::Keep
        }
        Command::WriteRead => change_one(sizes, stores.values, Operation::Replace, payload, 2),
        Command::MakeGroup => Regroup::Make(sets::set_of(payload)),
        Command::RemoveGroups => removal(groups),
        Command::WriteBlock => {
            curves::change(layout.curves, stores.blocks, stores.lengths, payload);
            Regroup::Keep
        }
        Command::RenewSum => {
            let curve = parts::curve_at(payload, 0);
            // Lent as they are to be changed: two of them can't be lent to be read out of what is lent itself.
            let blocks = &mut *stores.blocks;
            let lengths = &mut *stores.lengths;
            sums::renew(layout.curves, blocks, lengths, stores.sums, curve);
            Regroup::Keep
        }
        Command::Version
        | Command::ListVariables
        | Command::ListGroups
        | Command::ShowGroup
        | Command::ListCurves
        | Command::ReadSum
        | Command::ListFunctions
        | Command::ReadVariable
        | Command::ReadGroup
        | Command::ReadBlock
        | Command::RunFunction
        | Command::Unknown => Regroup::Keep,
    }
}
