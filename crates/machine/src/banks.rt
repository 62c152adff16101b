// The banks of the two memories, and the two rows of addresses of a line of many banks. This module is private to the
// crate, so its functions may have a `requires`.
ghost use Rattle.std.specs.Prelude.{◌≡◌, ◌+◌, ◌*◌, ◌<◌, ◌≤◌, length, get_or};
ghost use Rattle.std.proofs.Common.{refl, ◌∙◌};
ghost use Rattle.bits.specs.inner.Taking.{Room};
ghost use Rattle.tables.specs.Terms.{cycles, address_bits};
ghost use Rattle.machine.specs.Step.{spot};
ghost use Rattle.machine.specs.inner.Rows.{row_of, spot_in, word_in, Taken, Outside, RowTaken, Sent, stored};

use bits::Cursor;
use limits::MOST_WIDTH;
use rows::{Banks, take_row};
use tables::Shape;

// The word of a memory at an address of a half of a bank.
pub fn spot_of(shape: Shape, half: usize, bank: usize, address: usize) -> usize
    requires { (half < 2) × (bank < shape.width) × (address < cycles shape.words shape.width) }
    ensures { (result ≡ spot (cycles shape.words shape.width) half bank address) × (result < 2 * shape.words) }
{
    bank * (2 * shape.cycles) + (half * shape.cycles + address)
}

// The banks of the first memory: each reads at its address in a half, and its word is put in `got`. A bank is faulty
// whose address is outside the frame.
#[derive(Drop)]
struct Fetched<'a> {
    half: usize,
    first: &'a [u16],
    got: &'a mut [u16; MOST_WIDTH],
}

impl Banks for Fetched<'_> {
    ghost Ready = { λ shape now. (now.half < 2) × (2 * shape.words ≤ length now.first.now) };

    ghost On = { λ shape start addresses k now. (start.half ≡ now.half) × (start.first.now ≡ now.first.now)
        × Taken (word_in shape start.first.now start.half) addresses shape k now.got.now };

    ghost Fault = { λ shape start addresses. Outside addresses shape };

    ghost Same = { λ a b. (a.half ≡ b.half) × (a.first.now ≡ b.first.now) × (a.got.ghost_name ≡ b.got.ghost_name) };

    fn take(&mut self, address: usize, bank: usize, shape: Shape) -> bool {
        if shape.cycles <= address {
            return true;
        }
        self.got[bank] = self.first[spot_of(shape, self.half, bank, address)];
        false
    }

    ghost stays = { λ shape a b s r. rw (s.0, s.1) at r };

    ghost same_self = { λ a. (refl, refl, refl) };

    ghost same_then = { λ a b c s t. (s.0 ∙ t.0, s.1 ∙ t.1, s.2 ∙ t.2) };
}

// Takes the read addresses of the line that comes next, and puts the words that stand there in a half of the first
// memory in `got`.
pub fn fetch(
    file: &[u8],
    cursor: Cursor,
    shape: Shape,
    half: usize,
    first: &[u16],
    got: &mut [u16; MOST_WIDTH],
) -> Option<Cursor>
    requires in_file { (8 ≤ length file.now) × Room cursor (shape.width * address_bits shape.words shape.width) }
    requires half_bound { (half < 2) × (2 * shape.words ≤ length first.now) }
    ensures { RowTaken result (word_in shape first.now half) cursor (row_of shape file.now cursor.at) shape got.new }
{
    let mut banks = Fetched { half, first, got };
    take_row(file, cursor, shape, &mut banks)
}

// The banks of the second memory: each writes at its address in a half, and its spot is put in `to`. A bank is faulty
// whose address is outside the frame.
#[derive(Drop)]
struct Aimed<'a> {
    half: usize,
    to: &'a mut [u16; MOST_WIDTH],
}

impl Banks for Aimed<'_> {
    ghost Ready = { λ shape now. now.half < 2 };

    ghost On = { λ shape start addresses k now. (start.half ≡ now.half)
        × Taken (spot_in shape start.half) addresses shape k now.to.now };

    ghost Fault = { λ shape start addresses. Outside addresses shape };

    ghost Same = { λ a b. (a.half ≡ b.half) × (a.to.ghost_name ≡ b.to.ghost_name) };

    fn take(&mut self, address: usize, bank: usize, shape: Shape) -> bool {
        if shape.cycles <= address {
            return true;
        }
        self.to[bank] = spot_of(shape, self.half, bank, address) as u16;
        false
    }

    ghost stays = { λ shape a b s r. rw s.0 at r };

    ghost same_self = { λ a. (refl, refl) };

    ghost same_then = { λ a b c s t. (s.0 ∙ t.0, s.1 ∙ t.1) };
}

// Takes the write addresses of the line, which come next, and puts their spots in a half of the second memory in `to`.
pub fn aim(
    file: &[u8],
    cursor: Cursor,
    shape: Shape,
    half: usize,
    to: &mut [u16; MOST_WIDTH],
) -> Option<Cursor>
    requires in_file { (8 ≤ length file.now) × Room cursor (shape.width * address_bits shape.words shape.width) }
    requires half_bound { (half < 2) }
    ensures { RowTaken result (spot_in shape half) cursor (row_of shape file.now cursor.at) shape to.new }
{
    let mut banks = Aimed { half, to };
    take_row(file, cursor, shape, &mut banks)
}

// Each bank of the second memory gets, at its spot, the word of the bank that leaves the network on its line.
pub fn put_words(
    shape: Shape,
    got: &[u16; MOST_WIDTH],
    sources: &[u8; MOST_WIDTH],
    to: &[u16; MOST_WIDTH],
    second: &mut [u16],
)
    requires { Sent shape got.now sources.now to.now second.old }
    ensures { second.new
        ≡ stored (λ k. get_or to.now k 0) (λ k. get_or got.now (get_or sources.now k 0) 0) shape.width second.old }
{
    for k in 0..shape.width {
        second[to[k] as usize] = got[sources[k] as usize];
    }
}
