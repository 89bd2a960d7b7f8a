// Statements, as a line says them.
use icmc_words::Instruction;
use page_tokens::Name;

// The second word of an instruction: a number, or the address of a label.
#[derive(Clone, Copy, Debug, PartialEq, Eq)]
pub enum Operand {
    Number(u16),
    Label(Name),
}

#[derive(Clone, Copy, Debug, PartialEq, Eq)]
pub enum Statement<'a> {
    Empty,
    OneWord(Instruction),
    TwoWords(Instruction, Operand),
    // so many words of 0
    Var(u16),
    // a word for each letter, then 0
    Text(&'a [u8]),
    // a variable, the index of one of its words, and what that word is
    Static(Name, u16, u16),
}
