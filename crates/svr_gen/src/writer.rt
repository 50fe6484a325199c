ghost use Rattle.std.specs.Prelude.{◌≡◌, ◌<◌, [], IfOk, OnOk, length};
ghost use Rattle.std.specs.Fmt.{decimal};
ghost use Rattle.svr_gen.specs.Layout.{after_draw, drawn, followed};
ghost use Rattle.svr_gen.specs.Parts.{as_written, below, generator_of, one_to, plain};

use itoa::Buffer;
use rand_core::utils::NextWord;
use rand_pcg::Lcg64Xsh32;
use std::alloc::Global;
use std::marker::Model;
use svr_edge::Memory;

/// The stream of each generator.
const STREAM: u64 = 1;

/// A text that is being written, with numbers that are drawn on the way.
#[derive(Drop)]
pub(crate) struct Writer {
    generator: Lcg64Xsh32,
    text: Vec<u8>,
}

impl Model for Writer {
    ghost use Rattle.svr_gen.specs.Parts.{Written};

    ghost Value = { Written };

    ghost view = { λ w. record { text = w.text.items; generator = w.generator } };
}

impl Writer {
    /// An empty text, with the generator of a number.
    #[tactic(auto, unfolding(crate::specs::Parts::plain, crate::specs::Parts::generator_of))]
    pub(crate) fn new(alloc: Global, number: u64) -> Writer
        ensures { result ≡ plain [] (generator_of number) }
    {
        Writer {
            generator: Lcg64Xsh32::new(number, STREAM),
            text: Vec::new(alloc),
        }
    }

    /// An empty text, with the generator as it is here.
    #[tactic(auto, unfolding(crate::specs::Parts::plain))]
    pub(crate) fn beside(&self, alloc: Global) -> Result<Writer, Memory>
        ensures { IfOk result (λ w. w ≡ plain [] self.now.generator) }
    {
        Ok(Writer {
            generator: self.generator.clone()?,
            text: Vec::new(alloc),
        })
    }

    /// Writes a text.
    #[tactic(auto, unfolding(crate::specs::Parts::plain, crate::specs::Layout::followed))]
    pub(crate) fn put(&mut self, text: &[u8]) -> Result<(), Memory>
        ensures { OnOk result (self.new ≡ followed self.old (plain text.now)) }
    {
        self.text.extend_from_slice(text)?;
        Ok(())
    }

    /// Writes a number in decimal.
    pub(crate) fn put_number(&mut self, number: u64) -> Result<(), Memory>
        ensures { OnOk result (self.new ≡ followed self.old (plain (decimal number))) }
    {
        let mut digits = Buffer::new();
        self.put(digits.format(number).as_bytes())
    }

    /// The next number below `end`.
    #[tactic(auto, unfolding(crate::specs::Layout::drawn, crate::specs::Layout::after_draw))]
    pub(crate) fn draw(&mut self, end: u32) -> u32
        requires { 0 < end }
        ensures value { result ≡ drawn end self.old }
        ensures after { self.new ≡ after_draw self.old }
    {
        self.generator.next_word() % end
    }

    /// Writes the next number below `end`.
    #[tactic(auto, using(crate::proofs::Following::parts), unfolding(crate::specs::Parts::below))]
    pub(crate) fn put_below(&mut self, end: u32) -> Result<(), Memory>
        requires { 0 < end }
        ensures { OnOk result (self.new ≡ followed self.old (below end)) }
    {
        let number = self.draw(end);
        self.put_number(u64::from(number))
    }

    /// Writes the next number from 1 to `most`.
    #[tactic(auto, using(crate::proofs::Following::parts), unfolding(crate::specs::Parts::one_to))]
    pub(crate) fn put_one_to(&mut self, most: u32) -> Result<(), Memory>
        requires { 0 < most }
        ensures { OnOk result (self.new ≡ followed self.old (one_to most)) }
    {
        let number = self.draw(most);
        self.put_number(1 + u64::from(number))
    }

    /// Writes all of a text that was begun beside this one. The draws go on behind its own.
    #[tactic(auto, unfolding(crate::specs::Parts::as_written, crate::specs::Layout::followed))]
    pub(crate) fn put_all(&mut self, other: Writer) -> Result<(), Memory>
        ensures { OnOk result (self.new ≡ followed self.old (as_written other)) }
    {
        self.text.extend_from_slice(other.text.as_slice())?;
        self.generator = other.generator;
        Ok(())
    }

    /// How many bytes were written.
    pub(crate) fn len(&self) -> usize
        ensures { result ≡ length self.now.text }
    {
        self.text.len()
    }

    /// The text.
    pub(crate) fn into_text(self) -> Vec<u8>
        ensures { result.items ≡ self.text }
    {
        self.text
    }
}
