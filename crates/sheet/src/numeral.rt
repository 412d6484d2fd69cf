// A number of the sheet.
ghost use Rattle.std.specs.Prelude.{◌≡◌, ◌≤◌, length};
ghost use Rattle.sheet.specs.Numeral.{figures_after, misshapen, numeral};

fn is_misshapen(word: &[u8]) -> bool
    ensures { result ≡ misshapen word.now }
{
    matches!(word, [] | [b'0', _, ..]) || word.len() > 5
}

// The value of the figures, if the bytes are all figures. By a `for`: the closure of a `try_fold` would have to know how many came
// before, for its sum to fit.
#[tactic(auto, using(crate::proofs::Figures::figure_more, crate::proofs::Figures::figure_stop, crate::proofs::Figures::figure_all, crate::proofs::Figures::ten_more))]
fn figures(word: &[u8]) -> Option<u32>
    requires { length word.now ≤ 5 }
    ensures { result ≡ figures_after 0 word.now }
{
    let mut value = 0;
    for b in word {
        if !b.is_ascii_digit() {
            return None;
        }
        value = value * 10 + u32::from(*b - b'0');
    }
    Some(value)
}

pub(crate) fn number_of(word: &[u8]) -> Option<u16>
    ensures { result ≡ numeral word.now }
{
    if is_misshapen(word) {
        return None;
    }
    u16::try_from(figures(word)?).ok()
}
