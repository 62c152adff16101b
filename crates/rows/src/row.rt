// A row of addresses, one for each bank of a line. Several addresses are taken as one field, and each is tested and
// used as it is taken. Only our own crates call these functions, so they may have a `requires`.
ghost use Rattle.std.specs.Prelude.{◌≡◌, List, ℕ, ◌+◌, ◌*◌, ◌<◌, ◌≤◌, length, get_or};
ghost use Rattle.bits.specs.Bits.{field};
ghost use Rattle.bits.specs.inner.Taking.{most_field, Room};
ghost use Rattle.tables.specs.Terms.{address_bits};
ghost use Rattle.tables.specs.inner.Lines.{row_at};
ghost use Rattle.tables.specs.declared.Shape.{Shape};
ghost use Rattle.rows.specs.inner.Rows.{To, RowTo};

use bits::Cursor;
use tables::{Shape, address_in};

// Four addresses of at most 14 bits lie in one field.
const GROUP: usize = 4;

// What the addresses of a row are taken for.
pub trait Banks {
    // What is lent has room for a set of this shape.
    ghost Ready: { Shape → Self → Type 0 };

    // Since a start, the banks below k were taken.
    ghost On: { Shape → Self → List ℕ → ℕ → Self → Type 0 };

    // A bank of the row is faulty.
    ghost Fault: { Shape → Self → List ℕ → Type 0 };

    // The same is lent.
    ghost Same: { Self → Self → Type 0 };

    // Takes the address of a bank. Whether the bank is faulty.
    fn take(&mut self, address: usize, bank: usize, shape: Shape) -> bool
        requires in_bounds { bank < shape.width }
        requires ready { Ready shape self.old }
        ensures same { Same self.old self.new }
        ensures told { (start : Self) (addresses : List ℕ) → get_or addresses bank 0 ≡ address
            → On shape start addresses bank self.old
            → To result (Fault shape start addresses) (On shape start addresses (bank + 1) self.new) };

    ghost stays: { (shape : Shape) (a b : Self) → Same a b → Ready shape a → Ready shape b };

    ghost same_self: { (a : Self) → Same a a };

    ghost same_then: { (a b c : Self) → Same a b → Same b c → Same a c };
}

// Takes the addresses of `count` banks from bank `from` on, which stand in one field. Whether one of the banks is
// faulty.
fn take_group<B: Banks>(row: u64, count: usize, from: usize, shape: Shape, banks: &mut B) -> bool
    requires in_bounds { (from + count ≤ shape.width) × (count * address_bits shape.words shape.width ≤ most_field) }
    requires ready { B.Ready shape banks.old }
    ensures same { B.Same banks.old banks.new }
    ensures told { (start : B) (file : List ℕ) (at : ℕ)
        → row ≡ field file (at + from * address_bits shape.words shape.width)
        (count * address_bits shape.words shape.width)
        → B.On shape start (row_at file at (address_bits shape.words shape.width)) from banks.old
        → To result (B.Fault shape start (row_at file at (address_bits shape.words shape.width)))
        (B.On shape start (row_at file at (address_bits shape.words shape.width)) (from + count) banks.new) }
{
    let size = shape.addressing;
    let mut behind = count * size;
    for j in 0..count {
        behind -= size;
        let address = address_in(row, behind, size);
        if banks.take(address, from + j, shape) {
            return true;
        }
    }
    false
}

// Takes the row of addresses that comes next. The cursor behind it, or nothing where a bank is faulty.
pub fn take_row<B: Banks>(
    file: &[u8],
    cursor: Cursor,
    shape: Shape,
    banks: &mut B,
) -> Option<Cursor>
    requires in_bounds { (8 ≤ length file.now) × Room cursor (shape.width * address_bits shape.words shape.width) }
    requires ready { B.Ready shape banks.old }
    ensures same { B.Same banks.old banks.new }
    ensures told { B.On shape banks.old (row_at file.now cursor.at (address_bits shape.words shape.width)) 0 banks.old
        → RowTo result cursor shape
        (B.Fault shape banks.old (row_at file.now cursor.at (address_bits shape.words shape.width)))
        (B.On shape banks.old (row_at file.now cursor.at (address_bits shape.words shape.width)) shape.width banks.new) }
{
    let width = shape.width;
    let size = shape.addressing;
    let mut next = cursor;
    let mut b = 0;
    // The last group begins at the bank that is left, so a `for` is no plainer.
    while b + GROUP <= width {
        let taken = bits::next_field(file, next, GROUP * size);
        if take_group(taken.value, GROUP, b, shape, banks) {
            return None;
        }
        next = taken.rest;
        b += GROUP;
    }
    let rest = width - b;
    if rest == 0 {
        return Some(next);
    }
    let last = bits::next_field(file, next, rest * size);
    if take_group(last.value, rest, b, shape, banks) {
        return None;
    }
    Some(last.rest)
}
