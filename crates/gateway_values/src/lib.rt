// Values out of replies, in plain numbers: where a member's bytes stand in the answer to a read of its group, and numbers by the kinds that the
// gateway supplies.
#![tactic(auto)]

ghost use Rattle.std.specs.Prelude.{◌≡◌, true, false, length, replicate};
ghost use Rattle.records.specs.Lending.{records_by};
ghost use Rattle.learned.specs.Table.{known_table, held_table};
ghost use Rattle.endings.specs.Numbers.{signed_says, unsigned_says};
ghost use Rattle.plain.specs.Calls.{plain_bytes_left, reading_of, writing_of};
ghost use Rattle.asking.specs.Learning.{records_for};
ghost use Rattle.gateway_values.specs.Values.{no_place_of, member_place, place_of, Taken};

use bsmp::{GroupNumber, Refusal, VariableNumber};
use endings::{PlainSignedReading, PlainUnsignedReading};
use learned::{Known, LearnedTable};
use numbers::Number;
use records::Records;

// Where a variable's bytes stand in a reply: refusal 0, its place and its length; or the refusal, and 0. It is the C interface's struct.
#[repr(C)]
#[derive(Clone, Copy)]
pub struct PlainPlace {
    pub refusal: u8,
    pub place: usize,
    pub length: usize,
}

impl From<Refusal> for PlainPlace {
    ghost from_gives = { λ refusal plain. plain ≡ no_place_of refusal };

    fn from(refusal: Refusal) -> PlainPlace {
        PlainPlace {
            refusal: u8::from(refusal),
            place: 0,
            length: 0,
        }
    }
}

// Where a variable's bytes stand in the answer to a read of a group: behind the head and the members before it.
fn member_place(known: &Known, g: GroupNumber, i: VariableNumber) -> PlainPlace
    ensures { result ≡ member_place (known_table known.now) g i }
{
    if known.sizes.len() <= i.0 {
        return PlainPlace::from(Refusal::NoSuchVariable);
    }
    if 3 + known.sets.len() <= g.0 {
        return PlainPlace::from(Refusal::NoSuchVariable);
    }
    let set = sets::group_set(known.writable, known.sets, g);
    if !sets::is_marked(set, i) {
        return PlainPlace::from(Refusal::NoSuchVariable);
    }
    let before = members::set_bytes(known.sizes, sets::declared(set, i.0));
    PlainPlace {
        refusal: 0,
        place: 4 + before,
        length: usize::from(known.sizes[i.0]),
    }
}

// The same in a table, which tells no place if it breaks 01's limits.
pub fn place(table: &LearnedTable, wanted: usize, variable: usize) -> PlainPlace
    ensures { result ≡ place_of (held_table table.now) wanted variable }
{
    match table.known() {
        Some(known) => member_place(&known, GroupNumber(wanted), VariableNumber(variable)),
        None => PlainPlace::from(Refusal::BoardUnusable),
    }
}

// The records by the learned sizes and the kinds that the gateway supplies, as far as they have places; a variable counts as far as there is
// a kind for it. A reading asks of a type only that it is one, so all variables are lent as read-only. The records are lent to be filled: given back,
// they were copied once more there, with 80 bytes of stack.
fn take_records(table: &LearnedTable, kinds: &[u8], records: &mut Records)
    ensures columns { records.new ≡ records_by records.new.count (replicate 64 0) table.now.sizes records.new.kinds }
    ensures taken { Taken table.now.variables kinds.now records.new.count records.new.kinds }
{
    records.count = table.variables.min(kinds.len() as u64) as usize;
    records.writable = [0; 64];
    records.sizes = table.sizes;
    let n = kinds.len().min(64);
    copies::copy_into(&mut records.kinds, &kinds[..n]);
}

// Bytes to number, and number to bytes. The two readings differ in the struct that the C face has for each kind of number, so they stay two.
pub fn read_signed(
    table: &LearnedTable,
    kinds: &[u8],
    variable: usize,
    bytes: &[u8],
) -> PlainSignedReading
    ensures { signed_says result ≡ reading_of (records_for (held_table table.now) kinds.now) variable true bytes.now }
{
    let mut records = columns::BLANK;
    take_records(table, kinds, &mut records);
    plain::read_signed(&records, variable, bytes)
}

pub fn read_unsigned(
    table: &LearnedTable,
    kinds: &[u8],
    variable: usize,
    bytes: &[u8],
) -> PlainUnsignedReading
    ensures { unsigned_says result ≡ reading_of (records_for (held_table table.now) kinds.now) variable false bytes.now }
{
    let mut records = columns::BLANK;
    take_records(table, kinds, &mut records);
    plain::read_unsigned(&records, variable, bytes)
}

pub fn write<N: Number>(
    table: &LearnedTable,
    kinds: &[u8],
    variable: usize,
    number: N,
    buffer: &mut [u8],
) -> u8
    ensures { let records = records_for (held_table table.now) kinds.now in
        plain_bytes_left result buffer.new ≡ writing_of records variable N.SIGNED (N.meaning number) buffer.old }
{
    let mut records = columns::BLANK;
    take_records(table, kinds, &mut records);
    plain::write(&records, variable, number, buffer)
}
