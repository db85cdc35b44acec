//! Replies that are made from numbers.
use crate::tests::grammar::{RULES, Rule};
use std::alloc::{AllocError, Global};

// No reply of the grammar takes as many.
const MOST_STEPS: usize = 5000;

/// A reply while it is made.
#[derive(Drop)]
struct Maker {
    state: u64,
    // One form of so many is odd, and none where it is 0.
    odds: usize,
    // What is still to be written, the next last.
    left: Vec<u8>,
    bytes: Vec<u8>,
}

/// The bytes of the reply that a number makes of a letter of the grammar.
pub(crate) fn made(alloc: Global, letter: u8, seed: u64) -> Result<Vec<u8>, AllocError> {
    let mut maker = Maker {
        state: seed.wrapping_mul(0x9e37_79b9_7f4a_7c15),
        odds: odds(seed),
        left: Vec::new(alloc),
        bytes: Vec::new(alloc),
    };
    maker.left.push(letter)?;
    for _ in 0..MOST_STEPS {
        match maker.left.pop() {
            Some(byte) => maker.write(byte)?,
            None => break,
        }
    }
    Ok(maker.bytes)
}

fn odds(seed: u64) -> usize {
    match seed % 4 {
        0 => 0,
        1 => 30,
        2 => 12,
        _ => 5,
    }
}

impl Maker {
    fn write(&mut self, byte: u8) -> Result<(), AllocError> {
        match byte {
            b'A'..=b'Z' => self.replace(byte),
            b'0'..=b'9' => {
                self.bytes.push(byte)?;
                self.bytes.extend_from_slice(b"\r\n")
            }
            byte => Ok(self.bytes.push(byte)?),
        }
    }

    fn replace(&mut self, letter: u8) -> Result<(), AllocError> {
        match RULES.iter().find(|rule| rule.letter == letter) {
            Some(rule) => self.follow(rule),
            None => Ok(()),
        }
    }

    fn follow(&mut self, rule: &Rule) -> Result<(), AllocError> {
        if !rule.odd_forms.is_empty() && self.is_odd() {
            let form = self.pick(rule.odd_forms);
            return self.put_back(form);
        }
        let form = self.pick(rule.forms);
        if rule.is_bytes {
            return self.bytes.extend_from_slice(form);
        }
        self.put_back(form)
    }

    fn put_back(&mut self, form: &[u8]) -> Result<(), AllocError> {
        for byte in form.iter().rev() {
            self.left.push(*byte)?;
        }
        Ok(())
    }

    fn is_odd(&mut self) -> bool {
        self.odds != 0 && self.roll(self.odds) == 0
    }

    fn pick(&mut self, forms: &'static [&'static [u8]]) -> &'static [u8] {
        match forms.get(self.roll(forms.len())) {
            Some(form) => form,
            None => b"",
        }
    }

    /// A number below that of the sides.
    fn roll(&mut self, sides: usize) -> usize {
        self.state = self
            .state
            .wrapping_mul(6_364_136_223_846_793_005)
            .wrapping_add(1_442_695_040_888_963_407);
        let number = (self.state >> 33) as usize;
        match number.checked_rem(sides) {
            Some(number) => number,
            None => 0,
        }
    }
}
