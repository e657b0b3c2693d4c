// What a line is made of: numbers, each after a space, and which atoms are named.
ghost use Rattle.std.specs.Prelude.{◌≡◌, ◌++◌};
ghost use Rattle.text.specs.Line.{spaced, is_in};
ghost use Rattle.text.specs.Inner.Put.{Fits};

use super::Line;
use itoa::Buffer;

// A number after one space.
pub(crate) fn put_spaced(line: &mut Line, x: usize)
    requires { Fits line.old (spaced x) }
    ensures { line.new.bytes ≡ line.old.bytes ++ spaced x }
{
    let mut digits = Buffer::new();
    line.push_str(" ");
    line.push_str(digits.format(x));
}

// Is the atom after this index in?
pub(crate) fn is_in(map: &[u8], i: usize) -> bool
    ensures { result ≡ is_in map.now i }
{
    map.get(i).copied().unwrap_or(0) == 1
}
