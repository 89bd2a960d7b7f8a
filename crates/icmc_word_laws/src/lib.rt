// What holds of decoding and encoding taken together. Where a public call stands on a private one, the private one says what the code
// does, and the law is between the two.
#![tactic(auto)]

ghost use Rattle.std.specs.Prelude.{◌≡◌};
ghost use Rattle.icmc_words.specs.Encoded.{encoded};
ghost use Rattle.icmc_word_laws.specs.Assigned.{assigned};
ghost use Rattle.icmc_word_laws.specs.Laws.{recoded, normalized, then_decoded, returned, EncodedComesBack, AssignedExactly};

use icmc_words::Instruction;
use refusal::Refusal;

// A word with exactly its spare bits cleared; one that is no instruction is refused.
#[tactic(auto, using(crate::proofs::Words::normalized_law))]
pub fn normalize(word: u16) -> Result<u16, Refusal>
    ensures { result ≡ normalized word }
{
    recode(word)
}

fn recode(word: u16) -> Result<u16, Refusal>
    ensures { result ≡ recoded word }
{
    Instruction::decode(word)?.encode()
}

// Whether a word is an instruction.
#[tactic(auto, using(crate::proofs::Words::assigned_exactly))]
pub fn is_assigned(word: u16) -> bool
    ensures answer { result ≡ assigned word }
    ensures exactly { AssignedExactly }
{
    Instruction::decode(word).is_ok()
}

// An instruction by way of its word: itself; one with a register above 7 or a count above 15 is refused.
#[tactic(auto, using(crate::proofs::Back::returned_law))]
pub fn round_trip(instruction: Instruction) -> Result<Instruction, Refusal>
    ensures answer { result ≡ returned instruction }
    ensures back { EncodedComesBack }
{
    reread(instruction)
}

fn reread(instruction: Instruction) -> Result<Instruction, Refusal>
    ensures { result ≡ then_decoded (encoded instruction) }
{
    Instruction::decode(instruction.encode()?)
}
