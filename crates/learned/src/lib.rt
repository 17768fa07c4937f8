// What is learned of a node, as the gateway keeps it: numbers and places for them; and whether the table keeps 01's limits.
#![tactic(auto)]

ghost use Rattle.std.specs.Prelude.{◌≡◌, ◌&&◌, ◌*◌, ◌≤◌, ◌<◌, Some, None, cond, map, ◌%◌, leb, length, take, option_map};
ghost use Rattle.bsmp.specs.Base.{every};
ghost use Rattle.asking.specs.Learned.{usable_sizes, usable_learned};

use records::Groups;

// How much is known: so many variables, the writable ones as marks, so many made groups, curves and functions. Their records stand in the
// places behind: a set for each group, three numbers for each curve (type, block size, blocks), a size for each variable and two for each
// function (input, output). Of the places, and of the marks, past a count nothing counts. Its layout is the C face's.
#[repr(C)]
#[derive(Drop)]
pub struct LearnedTable {
    pub variables: u64,
    pub writable: u64,
    pub groups: u64,
    pub curves: u64,
    pub functions: u64,
    pub sets: [u64; 5],
    pub shapes: [u32; 24],
    pub sizes: [u8; 64],
    pub calls: [u8; 32],
}

// What is known of a node, lent by the fronts of the places.
#[derive(Clone, Copy)]
pub struct Known<'a> {
    pub sizes: &'a [u8],
    pub writable: u64,
    pub sets: &'a [u64],
    pub shapes: &'a [u32],
    pub calls: &'a [u8],
    pub ghost few: { length sizes.now ≤ 64 },
}

impl Known<'static> {
    // Nothing is learned yet.
    pub const NOTHING: Known<'static> = Known {
        sizes: &[],
        writable: 0,
        sets: &[],
        shapes: &[],
        calls: &[],
    };
}

// Whether there are 1 to 64 sizes of 1 to 127, together at most 4,096. A size is the low seven bits of a byte, as in list 03; no byte is
// over `most`.
pub fn usable_sizes(list: &[u8], most: u8) -> bool
    ensures { let l = list.now in result ≡ (every (λ b. leb b most) l && usable_sizes (map (λ b. b % 128) l)) }
{
    if list.len() < 1 || 64 < list.len() {
        return false;
    }
    let mut bytes: u32 = 0;
    for byte in list {
        if most < *byte || byte % 128 < 1 {
            return false;
        }
        bytes += u32::from(byte % 128);
    }
    bytes <= 4096
}

// The first so many records of places, `width` places each; none where there are not so many. That they are few is known, so that their product needs no
// test: one is a call of 64 bits on a processor that tells no carry.
#[tactic(auto, using(crate::proofs::Fronts::too_many, crate::proofs::Fronts::few_fit))]
fn front<T>(places: &[T], count: u64, width: usize) -> Option<&[T]>
    requires { (0 < width) × (width ≤ 3) × (length places.now ≤ 96) }
    ensures { let n = count * width in
        option_map (λ s. s.now) result ≡ cond (leb n (length places.now)) (Some (take n places.now)) None }
{
    let n = usize::try_from(count).ok()?;
    if places.len() < n {
        return None;
    }
    places.get(..n * width)
}

impl LearnedTable {
    ghost use Rattle.learned.specs.Table.{has_places, known_table, held_table};

    // What is known, where the counts are no more than there are places.
    fn fronts(&self) -> Option<Known<'_>>
        ensures { let t = self.now in option_map known_table result ≡ cond (has_places t) (Some (held_table t)) None }
    {
        Some(Known {
            sizes: front(&self.sizes, self.variables, 1)?,
            writable: self.writable,
            sets: front(&self.sets, self.groups, 1)?,
            shapes: front(&self.shapes, self.curves, 3)?,
            calls: front(&self.calls, self.functions, 2)?,
        })
    }

    // What is known, in a table that keeps 01's limits, whatever its counts are; none in any other.
    pub fn known(&self) -> Option<Known<'_>>
        ensures { let x = held_table self.now in option_map known_table result ≡ cond (usable_learned x) (Some x) None }
    {
        let known = self.fronts()?;
        let groups = Groups {
            count: self.groups,
            sets: self.sets,
        };
        if !usable_sizes(known.sizes, 127)
            || rules::usable_curves(known.shapes).is_none()
            || !rules::usable_functions(known.calls)
            || !rules::usable_groups(&groups, known.sizes.len())
        {
            return None;
        }
        Some(known)
    }
}
