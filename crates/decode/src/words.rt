// One word of a table.
ghost use Rattle.std.specs.Prelude.{◌≤◌, ◌<◌, ◌≡◌, length, set};
ghost use Rattle.rules.specs.Limits.{number_most};

#[tactic(auto, unfolding(rules::specs::Limits::number_most))]
pub(crate) fn set_word(code: &mut [u32], i: usize, word: usize)
    requires inside { i < length code.old }
    requires fits { word ≤ number_most }
    ensures { code.new ≡ set code.old i word }
{
    code[i] = word as u32;
}
