// The taps of the other register, from two rows.
ghost use Rattle.std.specs.Prelude.{◌≡◌, ◌<◌, length};
ghost use Rattle.field.specs.Meaning.{Meaning};
ghost use Rattle.synthesis.specs.Joins.{joined_tap_of, Joined};

use field::Field;

// The tap i of the row c + x^shift · b.
fn joined_tap<F: Field>(field: &F, c: &[u16], b: &[u16], shift: usize, i: usize) -> u16
    requires inside { i < length c.now }
    requires same { length b.now ≡ length c.now }
    ensures { result ≡ joined_tap_of (F.means field.now) c.now b.now shift i }
{
    if i < shift {
        return c[i];
    }
    field.add(c[i], b[i - shift])
}

// The first taps of that row.
pub(crate) fn join_taps<F: Field>(field: &F, c: &[u16], b: &[u16], shift: usize, taps: &mut [u16])
    requires inside { length taps.old < length c.now }
    requires same { length b.now ≡ length c.now }
    ensures { Joined (F.means field.now) c.now b.now shift (length taps.old) taps.new }
{
    for (i, tap) in taps.iter_mut().enumerate() {
        *tap = joined_tap(field, c, b, shift, i + 1);
    }
}
