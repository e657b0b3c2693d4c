// The first bytes of a lent map, looked through. A byte that the map does not have counts as 0.
ghost use Rattle.std.specs.Prelude.{◌≡◌, get_or};
ghost use Rattle.gate.specs.Scan.{between, first_fault, map_fault, model_fault, is_contradiction};

fn byte_at(m: &[u8], i: usize) -> u8
    ensures { result ≡ get_or m.now i 0 }
{
    m.get(i).copied().unwrap_or(0)
}

fn is_between(low: u8, high: u8, b: u8) -> bool
    ensures { result ≡ between low high b }
{
    (low..=high).contains(&b)
}

// The first of n bytes that is not from low to high, or n: a check of the whole map, from which the place is handed out. The labelled loop that
// yields it by break is the form that the scope paper names for this place. A number, n where there is no such byte: `is_contradiction` and the
// tests compare it with n, as the definitions do. Bytes are written here as the sentences that are quoted write them.
fn first_fault(m: &[u8], n: usize, low: u8, high: u8) -> usize
    ensures { result ≡ first_fault (between low high) n m.now }
{
    let place = 'whole: loop {
        let mut i = 0;
        let fault = loop {
            if n <= i {
                break 'whole n;
            }
            if is_between(low, high, byte_at(m, i)) {
                i += 1;
            } else {
                break i;
            }
        };
        break 'whole fault;
    };
    place
}

// "If the first byte is 3, the first that is not 3; otherwise the first above 2", or n.
pub fn map_fault(m: &[u8], n: usize) -> usize
    ensures { result ≡ map_fault n m.now }
{
    if n == 0 {
        return n;
    }
    if byte_at(m, 0) == 3 {
        return first_fault(m, n, 3, 3);
    }
    first_fault(m, n, 0, 2)
}

// "The first byte that is not 1 or 2", or n.
pub fn model_fault(m: &[u8], n: usize) -> usize
    ensures { result ≡ model_fault n m.now }
{
    first_fault(m, n, 1, 2)
}

// "All n bytes 3 means contradiction (only where n is at least 1)."
pub fn is_contradiction(m: &[u8], n: usize) -> bool
    ensures { result ≡ is_contradiction n m.now }
{
    0 < n && first_fault(m, n, 3, 3) == n
}
