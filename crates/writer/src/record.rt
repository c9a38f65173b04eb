// The records of words and of rules, put down one by one from the lent numbers.
ghost use Rattle.std.specs.Prelude.{◌≡◌, List, ℕ, ◌+◌, ◌<◌, ◌≤◌, length};
ghost use Rattle.problem.specs.Lent.{word_count, rule_count};
ghost use Rattle.lists.specs.Lists.{put};
ghost use Rattle.blocks.specs.Records.{word_record, rule_record};
ghost use Rattle.blocks.specs.Edition.{Form, edition1};
ghost use Rattle.blocks.specs.Fair.{FormFits};
ghost use Rattle.blocks.proofs.Fair.{fair1};
ghost use Rattle.writer.specs.Items.{Narrow};

use crate::bytes::{put_bytes, put_zeros};
use crate::{RULES, WORDS};
use problem::{FIELDS, STRIDE};

// The kind of the blocks of a form of records, the bytes of a record, and how many a full block has.
#[derive(Clone, Copy)]
pub struct Shape {
    pub kind: u8,
    pub size: usize,
    pub most: usize,
}

// Records of one form, made of lent numbers.
pub trait Records {
    ghost kind: { ℕ };

    ghost form: { Form };

    ghost many: { Self → ℕ };

    ghost bytes: { Self → ℕ → List ℕ };

    fn shape(&self) -> Shape
        ensures { (result.kind ≡ kind) × (result.size ≡ form.size) × (result.most ≡ form.most) };

    // How many there are.
    fn count(&self) -> usize
        ensures { result ≡ many self.now };

    // Record j, put down.
    fn store(&self, b: &mut [u8], at: usize, j: usize)
        requires there { j < many self.now }
        requires room { at + form.size ≤ length b.old }
        ensures { b.new ≡ put b.old at (bytes self.now j) };

    ghost fits: { FormFits form };

    ghost sized: { (x : Self) (j : ℕ) → length (bytes x j) ≡ form.size };
}

// Lent words, whose widths have one byte.
#[derive(Clone, Copy)]
pub struct Words<'a> {
    pub list: &'a [u64],
    ghost narrow: { Narrow list.now },
}

// Lent rules.
#[derive(Clone, Copy)]
pub struct Rules<'a> {
    pub list: &'a [u8],
}

impl<'a> Records for Words<'a> {
    ghost kind = { 1 };

    ghost form = { edition1.words };

    ghost many = { λ x. word_count x.list.now };

    ghost bytes = { λ x. word_record x.list.now };

    ghost fits = { fair1.words };

    ghost sized = { λ x. fair1.words.sized x.list.now };

    fn shape(&self) -> Shape {
        Shape {
            kind: 1,
            size: 24,
            most: WORDS,
        }
    }

    fn count(&self) -> usize {
        self.list.len() / STRIDE
    }

    fn store(&self, b: &mut [u8], at: usize, j: usize) {
        let o = STRIDE * j;
        put_bytes(b, at, &self.list[o].to_le_bytes());
        put_bytes(b, at + 8, &self.list[o + 1].to_le_bytes());
        put_bytes(b, at + 16, &self.list[o + 2].to_le_bytes());
    }
}

impl<'a> Records for Rules<'a> {
    ghost kind = { 2 };

    ghost form = { edition1.rules };

    ghost many = { λ x. rule_count x.list.now };

    ghost bytes = { λ x. rule_record x.list.now };

    ghost fits = { fair1.rules };

    ghost sized = { λ x. fair1.rules.sized x.list.now };

    fn shape(&self) -> Shape {
        Shape {
            kind: 2,
            size: 8,
            most: RULES,
        }
    }

    fn count(&self) -> usize {
        self.list.len() / FIELDS
    }

    fn store(&self, b: &mut [u8], at: usize, j: usize) {
        let o = FIELDS * j;
        put_bytes(b, at, &self.list[o..o + FIELDS]);
        put_zeros(b, at + 6, 2);
    }
}
