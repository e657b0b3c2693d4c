// The first n bytes of a map, copied.
ghost use Rattle.std.specs.Prelude.{◌≡◌};
ghost use Rattle.rules.specs.Inner.Bytes.{Room};
ghost use Rattle.task.specs.Inner.Copy.{first_bytes};

pub fn copy(from: &[u8], n: usize, m: &mut [u8])
    requires from { Room n from.now }
    requires into { Room n m.old }
    ensures { m.new ≡ first_bytes n from.now m.old }
{
    m[..n].copy_from_slice(&from[..n]);
}
