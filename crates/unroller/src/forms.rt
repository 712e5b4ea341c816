// Affine forms in signed arithmetic: 32 bits hold every product and every sum.
ghost use Rattle.std.specs.Prelude.{◌≡◌, ◌+◌, ◌≤◌, ◌+ℤ◌, ◌*ℤ◌, nat_abs};
ghost use Rattle.unroller.specs.Run.{goes_on};
ghost use Rattle.unroller.specs.Forms.{form_sum, Packs, Values, Small};

use crate::walk::Scope;
use reader::fields::Read;
use reader::forms::form_at;

fn product(coefficient: i8, index: i16) -> i32
    ensures value { result ≡ coefficient *ℤ index }
    ensures bound { nat_abs result ≤ 4_194_304 }
{
    i32::from(coefficient) * i32::from(index)
}

// One more product. The bound is that of the constant and eight products.
fn form_step(sum: i32, coefficient: i8, index: i16) -> i32
    requires { nat_abs sum ≤ 33_587_200 }
    ensures value { result ≡ sum +ℤ (coefficient *ℤ index) }
    ensures bound { nat_abs result ≤ nat_abs sum + 4_194_304 }
{
    sum + product(coefficient, index)
}

// Eight signed bytes as one number, the first lowest: as a processor has them, by value in one register.
fn packed(c: [i8; 8]) -> usize
    ensures { Packs c result }
{
    usize::from_le_bytes([
        c[0].cast_unsigned(),
        c[1].cast_unsigned(),
        c[2].cast_unsigned(),
        c[3].cast_unsigned(),
        c[4].cast_unsigned(),
        c[5].cast_unsigned(),
        c[6].cast_unsigned(),
        c[7].cast_unsigned(),
    ])
}

// The value of a form. Most name one or two loops, so the work ends behind the last coefficient that is not 0: a loop over the loops
// and eight products in a row were slower.
fn form_value(constant: i16, coefficients: [i8; 8], indices: &[i16; 8]) -> i32
    ensures value { result ≡ form_sum constant coefficients indices.now 8 }
    ensures bound { nat_abs result ≤ 33_587_200 }
{
    let mut sum = i32::from(constant);
    let mut rest = packed(coefficients);
    let mut k: usize = 0;
    while rest != 0 {
        sum = form_step(sum, ((rest % 256) as u8).cast_signed(), indices[k]);
        rest = rest / 256;
        k += 1;
    }
    sum
}

impl<'a> Scope<'a> {
    // The value of the form at `at`, and the place past it.
    pub(crate) fn value_at(&self, at: usize) -> Read<i32>
        ensures value { Values self.now.program.now at self.now.loops self.now.indices result }
        ensures bound { Small result }
    {
        let (form, next) = form_at(self.program, at, self.loops)?;
        let value = form_value(form.constant, form.coefficients, &self.indices);
        Ok((value, next))
    }
}

// Whether a loop with this step goes on at this index. The index is wider than 16 bits, so that a step past either end is seen.
pub(crate) fn goes_on(index: i32, end: i32, step: i16) -> bool
    ensures { result ≡ goes_on step end index }
{
    if step >= 0 {
        index <= end
    } else {
        index >= end
    }
}
