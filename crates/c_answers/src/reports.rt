// Words put at the start of lent ones.
ghost use Rattle.std.specs.Prelude.{◌≡◌, ◌∷◌, []};
ghost use Rattle.c_answers.specs.Reports.{reported};

// Puts the words at the start of `out` where they all fit; else `out` stays as it is.
#[tactic(auto, unfolding(crate::specs::Reports::reported))]
pub fn report(out: &mut [u64], words: &[u64])
    ensures { out.new ≡ reported out.old words.now }
{
    if words.len() <= out.len() {
        out[..words.len()].copy_from_slice(words);
    }
}

pub fn report_two(out: &mut [u64], first: u64, second: usize)
    ensures { out.new ≡ reported out.old (first ∷ second ∷ []) }
{
    let words = [first, second as u64];
    report(out, &words);
}
