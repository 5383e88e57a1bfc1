// Writing into lent bytes: words and numbers.
#![tactic(auto)]

ghost use Rattle.std.specs.Prelude.{◌≡◌, ◌+◌, ◌≤◌, length};
ghost use Rattle.write.specs.Written.{over, decimal};

// Writes the word from place at on, and gives back the place past it.
pub fn word(out: &mut [u8], at: usize, w: &[u8]) -> usize
    requires { at + length w.now ≤ length out.old }
    ensures { (out.new ≡ over out.old at w.now) × (result ≡ at + length w.now) }
{
    let end = at + w.len();
    out[at..end].copy_from_slice(w);
    end
}

// Writes the decimal digits of n from place at on, and gives back the place past them.
pub fn number(out: &mut [u8], at: usize, n: u32) -> usize
    requires { at + length (decimal n) ≤ length out.old }
    ensures { (out.new ≡ over out.old at (decimal n)) × (result ≡ at + length (decimal n)) }
{
    if n < 10 {
        out[at] = b'0' + n as u8;
        return at + 1;
    }
    let e = number(out, at, n / 10);
    out[e] = b'0' + (n % 10) as u8;
    e + 1
}
