// What a processor is connected to, and any processor by its rules.
ghost use Rattle.std.specs.Prelude.{◌≡◌, ◌<◌, IfSome};
ghost use Rattle.processor.specs.Views.{View, Places, answer, look, probe, exchange, exchanged};
ghost use Rattle.processor.specs.Rules.{Rules};

use crate::{Mark, Next, Side};
use refusal::Refusal;

// Memory, screen and keys as one thing. Addresses and words are plain arguments, since others implement it.
pub trait Bus {
    // all that can be seen
    ghost view: { Self → View };
    // the places that refusals tell
    ghost places: { Self → Places };

    // The word in a cell.
    fn look(&self, side: Side, at: u16) -> Result<u16, Refusal>
        ensures { result ≡ answer (places self.now) (look (view self.now) side at) };

    // Whether a word could be put into a cell.
    fn probe(&self, side: Side, at: u16) -> Result<(), Refusal>
        ensures { result ≡ answer (places self.now) (probe (view self.now) side at) };

    // The key at a count, if there is one; there is none above 65,535.
    fn key(&self, count: u32) -> Option<u16>
        ensures answer { result ≡ (view self.now).keys count }
        ensures bound { IfSome result (λ key. count < 65536) };

    // Puts a word into a cell, and answers the word that stood there.
    fn exchange(&mut self, side: Side, at: u16, word: u16) -> Result<u16, Refusal>
        ensures answer { result ≡ answer (places self.old) (exchange (view self.old) side at) }
        ensures after { view self.new ≡ exchanged (view self.old) side at word }
        ensures places { places self.new ≡ places self.old };
}

// A processor, with all of its own state in one value.
pub trait Processor: Copy {
    ghost rules: { Rules Self };

    // The processor as a session opens it.
    fn start(stack: u16) -> Self
        ensures { result ≡ rules.start stack };

    // What the next instruction comes to; nothing is changed.
    fn next<B: Bus>(&self, bus: &B) -> Result<Next<Self>, Refusal>
        ensures { result ≡ answer (B.Bus.places bus.now) (rules.next self.now (B.Bus.view bus.now)) };

    // How the last instruction left it.
    fn mark(&self) -> Mark
        ensures { result ≡ rules.mark self.now };

    // What a register holds, if there is one of that number.
    fn register(&self, number: u16) -> Option<u16>
        ensures { result ≡ rules.register self.now number };
}
