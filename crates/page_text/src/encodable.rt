// Instructions that have a word.
ghost use Rattle.std.specs.Prelude.{◌≡◌, true};
ghost use Rattle.icmc_words.specs.Encoded.{encodable};

use icmc_words::Instruction;

// An instruction whose operands fit their fields.
#[derive(Clone, Copy, Debug, PartialEq, Eq)]
pub(crate) struct Encodable {
    pub(crate) instruction: Instruction,
    ghost fits: { encodable instruction ≡ true },
}
