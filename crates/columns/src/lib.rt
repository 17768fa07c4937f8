// A board's variable records, lent as a slice of small structs, taken into columns, which are lent to the work.
#![tactic(auto)]

ghost use Rattle.std.specs.Prelude.{◌≡◌, ◌<◌};
ghost use Rattle.columns.specs.Columns.{with_record, taken_into, columns_of};

use bsmp::Variable;
use records::Records;

// The places of a column.
const PLACES: usize = 64;

// No records, in columns of zeros.
pub const BLANK: Records = Records {
    count: 0,
    writable: [0; 64],
    sizes: [0; 64],
    kinds: [0; 64],
};

// One record at its place of each column.
#[inline(always)]
fn store(records: &mut Records, i: usize, v: Variable)
    requires { i < PLACES }
    ensures { records.new ≡ with_record records.old i v }
{
    records.writable[i] = v.writable;
    records.sizes[i] = v.size;
    records.kinds[i] = v.kind;
}

// The lent records stored into columns in place, in one walk, and how many there are. Of more than 64 the rest is counted alone, and so refused by the work.
// Each turn of the first loop stores four of them, the last first, so that the bound of one holds for the others too: one by one takes a packet of a full board
// longer (docs/PERFORMANCE.md). What is left of them comes one by one.
pub fn take(variables: &[Variable], records: &mut Records)
    ensures { records.new ≡ taken_into records.old variables.now }
{
    records.count = variables.len();
    let n = variables.len().min(PLACES);
    for turn in 0..n / 4 {
        let i = 4 * turn;
        store(records, i + 3, variables[i + 3]);
        store(records, i + 2, variables[i + 2]);
        store(records, i + 1, variables[i + 1]);
        store(records, i, variables[i]);
    }
    for i in n / 4 * 4..n {
        store(records, i, variables[i]);
    }
}

// The lent records in columns of their own, for a call on numbers. The calls on a whole board lend columns to `take`: given back, they were copied there, and a packet
// took 192 bytes of stack more, past the limit (ctest/stack.c).
pub fn taken(variables: &[Variable]) -> Records
    ensures { result ≡ columns_of variables.now }
{
    let mut records = BLANK;
    take(variables, &mut records);
    records
}
