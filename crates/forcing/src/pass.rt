// The order of a pass over the rules: up, or down. A chain of rules that stands against one order stands with the other.
ghost use Rattle.std.specs.Prelude.{◌<◌, ◌≡◌};
ghost use Rattle.forcing.specs.Inner.Pass.{placed};

// The rule that is visited as the i-th of so many. A number: `0..count` and its `rev()` are of two types, which one `for` does not take.
pub(crate) fn place(count: u32, i: u32, down: bool) -> u32
    requires { i < count }
    ensures { result ≡ placed down count i }
{
    if down { count - 1 - i } else { i }
}
