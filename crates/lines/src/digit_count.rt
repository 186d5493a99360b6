// SPDX-License-Identifier: MPL-2.0
// How many digits a number has.
ghost use Rattle.std.specs.Prelude.{◌≡◌};
ghost use Rattle.lines.specs.Text.{digit_count};

// How many digits a number has, of at most ten: 0 has one, as 1 has.
#[tactic(auto, using(crate::proofs::Digits::digit_count_at))]
pub(crate) fn digit_count(number: u32) -> usize
    ensures { result ≡ digit_count number }
{
    number.max(1).ilog10() as usize + 1
}
