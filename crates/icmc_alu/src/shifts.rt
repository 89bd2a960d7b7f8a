// Shifts and rotations of words.
ghost use Rattle.std.specs.Prelude.{◌≡◌, ◌%◌};
ghost use Rattle.icmc_alu.specs.Shifts.{shifted};

use icmc_words::ShiftKind;

// x shifted or rotated by n modulo 16.
#[tactic(auto, using(crate::proofs::Meets::shifts_left, crate::proofs::Meets::shifts_right, crate::proofs::Meets::rotates_left, crate::proofs::Meets::rotates_right))]
pub fn shift(kind: ShiftKind, x: u16, n: u8) -> u16
    ensures { result ≡ shifted kind x (n % 16) }
{
    let n = n % 16;
    match kind {
        ShiftKind::LeftZeros => x << n,
        ShiftKind::LeftOnes => (x << n) | ((1u16 << n) - 1),
        ShiftKind::RightZeros => x >> n,
        ShiftKind::RightOnes => (x >> n) | !(u16::MAX >> n),
        ShiftKind::RotateLeft => x.rotate_left(u32::from(n)),
        ShiftKind::RotateRight => x.rotate_right(u32::from(n)),
    }
}
