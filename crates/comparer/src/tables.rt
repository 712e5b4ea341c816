// Questions 22 and 23, and the bits of the out arrays, over the words of the tables (docs/LAYOUT.md, "An update list in words").
ghost use Rattle.std.specs.Prelude.{◌≡◌, ◌≤◌, length, get_or};
ghost use Rattle.comparer.specs.Headers.{Counted, bits_from, Leads, FirstApart, ArraysTell, OperatorsTell, TablesTell};

// The tables that differ, with the number of the first entry that does.
#[derive(Clone, Copy, Debug, PartialEq, Eq)]
pub(crate) enum Unequal {
    Arrays(usize),
    Operators(usize),
}

// Locals come last: the arrays before the first one are the non-local ones.
fn non_locals(list: &[u32]) -> usize
    requires { Counted list.now }
    ensures { Leads list.now result }
{
    let n = list[17] as usize;
    for a in 0..n {
        if list[18 + 5 * a] == 3 {
            return a;
        }
    }
    n
}

// The mask in which the bits of the out arrays are set, and no others: from the last array on, each has the bit below those behind it.
pub(crate) fn out_bits(list: &[u32]) -> u16
    requires { Counted list.now }
    ensures { result ≡ bits_from list.now 0 (get_or list.now 17 0) }
{
    let n = list[17] as usize;
    let mut bits: u16 = 0;
    for a in (0..n).rev() {
        if list[18 + 5 * a] == 1 {
            bits = 2 * bits + 1;
        } else {
            bits = 2 * bits;
        }
    }
    bits
}

// The first word from `from` on that differs, or `to`.
fn first_apart(left: &[u32], right: &[u32], from: usize, to: usize) -> usize
    requires { (from ≤ to) × (to ≤ length left.now) × (to ≤ length right.now) }
    ensures { FirstApart left.now right.now from to result }
{
    for i in from..to {
        if left[i] != right[i] {
            return i;
        }
    }
    to
}

// Question 22. An array is five words, so the number of a word's array is a quotient.
fn arrays(left: &[u32], right: &[u32]) -> Result<(), Unequal>
    requires { Counted left.now × Counted right.now }
    ensures { ArraysTell left.now right.now result }
{
    let n = non_locals(left);
    let m = non_locals(right);
    let a = (first_apart(left, right, 18, 18 + 5 * n.min(m)) - 18) / 5;
    if a < n.max(m) {
        return Err(Unequal::Arrays(a));
    }
    Ok(())
}

// Question 23.
fn operators(left: &[u32], right: &[u32]) -> Result<(), Unequal>
    requires { Counted left.now × Counted right.now }
    ensures { OperatorsTell left.now right.now result }
{
    let n = left[0] as usize;
    let m = right[0] as usize;
    let o = first_apart(left, right, 1, 1 + n.min(m)) - 1;
    if o < n.max(m) {
        return Err(Unequal::Operators(o));
    }
    Ok(())
}

pub(crate) fn tables(left: &[u32], right: &[u32]) -> Result<(), Unequal>
    requires { Counted left.now × Counted right.now }
    ensures { TablesTell left.now right.now result }
{
    arrays(left, right)?;
    operators(left, right)
}
