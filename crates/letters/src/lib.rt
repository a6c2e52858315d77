// Letters: bytes under XOR, their algebra and its laws; runs that are copied or cleared.
#![tactic(auto)]

pub mod moving;

ghost use Rattle.std.specs.Prelude.{◌≡◌, min};

// The lesser of two numbers.
pub fn lesser(a: usize, b: usize) -> usize
    ensures { result ≡ min a b }
{
    a.min(b)
}
