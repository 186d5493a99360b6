// SPDX-License-Identifier: MPL-2.0
// Bytes compared.
ghost use Rattle.std.specs.Prelude.{◌≡◌, ◌&&◌, true, eqb};
ghost use Rattle.std.specs.List.{fold, zip};
ghost use Rattle.laws.specs.Same.{same};

// As far as both go they have the same bytes. All are compared, also past a difference: so it is done sixteen at once, and a few as fast as they
// come.
fn agreeing(a: &[u8], b: &[u8]) -> bool
    ensures { result ≡ fold (λ are pair. are && eqb pair.0 pair.1) true (zip a.now b.now) }
{
    a.iter()
        .zip(b)
        .fold(true, |are, (one, other)| are & (*one == *other))
}

// The two have the same bytes.
#[tactic(auto, using(laws::proofs::Sames::same_length))]
pub fn alike(a: &[u8], b: &[u8]) -> bool
    ensures { result ≡ same a.now b.now }
{
    if a.len() != b.len() {
        return false;
    }
    agreeing(a, b)
}
