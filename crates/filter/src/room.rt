// Lent parts.
ghost use Rattle.std.specs.Prelude.{◌≡◌, All};

// A part to lend, of zeros. A function makes it, since the prover goes through an array element by element where it is made and lent at once.
pub fn zeros<const N: usize>() -> [u8; N]
    ensures { All (λ byte. byte ≡ 0) result }
{
    [0u8; N]
}
