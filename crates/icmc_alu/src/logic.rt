// Logic on words, bit by bit.
ghost use Rattle.std.specs.Prelude.{◌≡◌};
ghost use Rattle.icmc_alu.specs.Logic.{logic_word};

#[derive(Clone, Copy, Debug, PartialEq, Eq)]
pub enum Logic {
    And,
    Or,
    Xor,
    Not,
}

impl Logic {
    // The operation on y and z; not takes y alone.
    pub fn compute(self, y: u16, z: u16) -> u16
        ensures { result ≡ logic_word self y z }
    {
        match self {
            Logic::And => y & z,
            Logic::Or => y | z,
            Logic::Xor => y ^ z,
            Logic::Not => !y,
        }
    }
}
