// Comparing words, unsigned.
ghost use Rattle.std.specs.Prelude.{◌≡◌};
ghost use Rattle.icmc_alu.specs.Compared.{compared};
ghost use Rattle.icmc_alu.specs.Laws.{ComparisonLaws};

use crate::flags::{Flag, with_flag};

// FR after x and y were compared: of greater, lesser and equal exactly the one that holds is on.
#[tactic(auto, using(crate::proofs::FlagLaws::comparison_laws), unfolding(crate::specs::Compared::compared))]
pub fn compare(x: u16, y: u16, fr: u16) -> u16
    ensures answer { result ≡ compared x y fr }
    ensures laws { ComparisonLaws x y fr result }
{
    let fr = with_flag(fr, Flag::Equal, x == y);
    let fr = with_flag(fr, Flag::Lesser, x < y);
    with_flag(fr, Flag::Greater, x > y)
}
