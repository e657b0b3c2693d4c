// The mark of a rule, by which it is found, summed up number by number and list by list.
ghost use Rattle.std.specs.Prelude.{◌≡◌, ◌≤◌};
ghost use Rattle.rules.specs.Limits.{number_most};
ghost use Rattle.repeats.specs.Inner.Marks.{mixed, carried};

// Marks and places are cut down to so many.
const MARKS: usize = 4_294_967_296;

// A mark and one number more, at its place in a list.
#[tactic(auto, using(crate::proofs::marks::Laws::placed_most), unfolding(crate::specs::Inner::Marks::mark_count, crate::specs::Inner::Marks::mixed, rules::specs::Limits::number_most))]
pub fn mixed(mark: usize, place: usize, x: usize) -> usize
    requires { x ≤ number_most }
    ensures { result ≡ mixed mark place x }
{
    mark.wrapping_add(x * ((place % MARKS + x) * 2 + 1))
}

// A mark, where the next list begins.
#[tactic(auto, unfolding(crate::specs::Inner::Marks::mark_count, crate::specs::Inner::Marks::carried))]
pub fn carried(mark: usize) -> usize
    ensures { result ≡ carried mark }
{
    mark % MARKS * 487
}
