// Worked examples that every model has to agree with.
ghost use Rattle.std.specs.Prelude.{◌≡◌, false, [], ◌∷◌};
ghost use Rattle.icmc_alu.specs.Whole.{performed};
ghost use Rattle.icmc.specs.Examples.{filed, FiledExamples};

use icmc_alu::{Arithmetic, Executed, shift};
use icmc_words::{Instruction, ShiftKind};
use refusal::Refusal;

// What the examples come to.
#[derive(Clone, Copy, Debug, PartialEq, Eq)]
pub struct Examples {
    // 65535 + 1, 0 - 1, 46341 * 46341 and 7 / 0, each on FR 0
    pub sum: Executed,
    pub difference: Executed,
    pub product: Executed,
    pub quotient: Executed,
    // 0x8001 rotated to the left by 1
    pub rotated: u16,
    // 0x0bc0 and 0xe001 decoded
    pub no_condition: Result<Instruction, Refusal>,
    pub no_loadn: Result<Instruction, Refusal>,
    // 0xcc02 decoded and encoded
    pub recoded: Result<u16, Refusal>,
}

// The words and flags of four operations: 65535 + 1, 0 - 1, 46341 * 46341 and 7 / 0.
pub fn arithmetic_examples() -> [u16; 8]
    ensures { result ≡ 0 ∷ 56 ∷ 65535 ∷ 544 ∷ 4633 ∷ 48 ∷ 0 ∷ 72 ∷ [] }
{
    let sum = example(Arithmetic::Add, 65535, 1);
    let difference = example(Arithmetic::Sub, 0, 1);
    let product = example(Arithmetic::Mul, 46341, 46341);
    let quotient = example(Arithmetic::Div, 7, 0);
    [
        sum.word,
        sum.fr,
        difference.word,
        difference.fr,
        product.word,
        product.fr,
        quotient.word,
        quotient.fr,
    ]
}

// The table of examples that every model has to agree with, one instruction or two each: its contract is the table.
#[tactic(auto, unfolding(icmc_alu::specs::Whole::executed, crate::specs::Calculations::calculation, crate::specs::Steps::carried_out, crate::specs::Steps::meaning, crate::specs::Steps::next_of))]
pub fn filed_examples()
    ensures { FiledExamples }
{}

// An operation with no carry, on FR 0.
#[tactic(auto, unfolding(icmc_alu::specs::Whole::executed))]
fn example(operation: Arithmetic, y: u16, z: u16) -> Executed
    ensures { result ≡ performed operation y z false 0 }
{
    operation.execute(y, z, false, 0)
}

// The examples as values, and the same by whole instructions.
pub fn worked_examples() -> Examples
    ensures values { result ≡ filed }
    ensures instructions { FiledExamples }
{
    filed_examples();
    Examples {
        sum: example(Arithmetic::Add, 65535, 1),
        difference: example(Arithmetic::Sub, 0, 1),
        product: example(Arithmetic::Mul, 46341, 46341),
        quotient: example(Arithmetic::Div, 7, 0),
        rotated: shift(ShiftKind::RotateLeft, 0x8001, 1),
        no_condition: Instruction::decode(0x0bc0),
        no_loadn: Instruction::decode(0xe001),
        recoded: Instruction::decode(0xcc02).and_then(Instruction::encode),
    }
}
