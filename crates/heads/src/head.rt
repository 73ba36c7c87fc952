// The check of a class's head, field by field.
ghost use Rattle.std.specs.Prelude.{◌≡◌, ℕ, ◌+◌, ◌*◌, ◌≤◌, List, length, IfOk, OnOk, nat_le};
ghost use Rattle.heads.specs.Checked.{Checked, ask as asked, repeated};
ghost use Rattle.answers.specs.declared.fault.FaultKind.TheVariants.{ClassHead};
ghost use Rattle.answers.specs.declared.fault.Layer.TheVariants.{ClassHead as ClassHeadL};
ghost use Rattle.heads.specs.Heads.{byte, field as field_of, is_kind, kind_fits, check_variable, check_kind, check_exchange, check_declaration, check_head, Headed};

use crate::bytes::{byte_at, row_at};
use crate::checked::ask;
use answers::fault::{FaultKind, Layer, LoadFault};

// Whether so many bytes from a place on lie within the class.
pub fn inside(file: &[u8], at: usize, size: usize) -> Result<(), LoadFault>
    ensures exact { result ≡ asked (nat_le (at + size) (length file.now)) ClassHead at ClassHeadL }
    ensures within { OnOk result (at + size ≤ length file.now) }
{
    let end = at.checked_add(size);
    ask(
        end.is_some_and(|end| end <= file.len()),
        FaultKind::ClassHead,
        at,
        Layer::ClassHead,
    )
}

// Whether a field of some bytes lies within the class and its bounds.
fn field(file: &[u8], at: usize, size: usize, good: bool) -> Result<(), LoadFault>
    ensures exact { result ≡ field_of file.now at size good }
    ensures within { OnOk result (at + size ≤ length file.now) }
{
    inside(file, at, size)?;
    ask(good, FaultKind::ClassHead, at, Layer::ClassHead)
}

// Whether it is one of the two bytes that the format has for kinds.
fn is_kind(byte: u8) -> bool
    ensures { result ≡ is_kind byte }
{
    matches!(byte, 1 | 2)
}

// The kind byte of value `i` in a declaration of some values.
fn kind_fits(i: u8, count: u8, byte: u8) -> bool
    ensures { result ≡ kind_fits i count byte }
{
    if i < count { is_kind(byte) } else { byte == 0 }
}

fn check_kind(file: &[u8], at: usize, i: u8) -> Result<(), LoadFault>
    requires { at + 4 ≤ length file.now }
    ensures exact { result ≡ check_kind file.now at i }
    ensures within { OnOk result (at + 4 + i + 1 ≤ length file.now) }
{
    let place = at + 4 + i as usize;
    field(
        file,
        place,
        1,
        kind_fits(i, byte_at(file, at + 3), byte_at(file, place)),
    )
}

// Direction, channel, message and number of values.
fn check_exchange(file: &[u8], at: usize) -> Result<(), LoadFault>
    ensures exact { result ≡ check_exchange file.now at }
    ensures within { OnOk result (at + 4 ≤ length file.now) }
{
    field(file, at, 1, byte_at(file, at) < 2)?;
    field(file, at + 1, 1, byte_at(file, at + 1) < 32)?;
    field(file, at + 2, 1, byte_at(file, at + 2) < 255)?;
    field(file, at + 3, 1, byte_at(file, at + 3) < 5)
}

// What the head of a class has some of: so many bytes each.
trait Item {
    ghost SIZE: { ℕ };

    const SIZE: usize;

    ghost checked: { List ℕ → ℕ → Checked (Unit {0}) };

    // Whether the one at a place lies within the class and its bounds.
    fn check(file: &[u8], at: usize) -> Result<(), LoadFault>
        ensures exact { result ≡ checked file.now at }
        ensures within { OnOk result (at + SIZE ≤ length file.now) };
}

// Kind, known, start value.
struct Variable;

// Direction, channel, message and number of values, and the kinds of the values.
struct Declaration;

impl Item for Variable {
    ghost SIZE = { 6 };

    const SIZE: usize = 6;

    ghost checked = { check_variable };

    fn check(file: &[u8], at: usize) -> Result<(), LoadFault> {
        let row = row_at(file, at);
        field(file, at, 1, is_kind(row.kind))?;
        field(file, at + 1, 1, row.known < 2)?;
        field(file, at + 2, 4, row.valid())
    }
}

impl Item for Declaration {
    ghost SIZE = { 8 };

    const SIZE: usize = 8;

    ghost checked = { check_declaration };

    #[tactic(auto, using(crate::proofs::KindBytes::kinds_step, crate::proofs::KindBytes::kinds_done))]
    fn check(file: &[u8], at: usize) -> Result<(), LoadFault> {
        check_exchange(file, at)?;
        // with `try_for_each` in its place both clauses stayed open
        for i in 0..4 {
            check_kind(file, at, i)?;
        }
        Ok(())
    }
}

// Some items from a place on, and the place behind them.
#[tactic(auto, using(crate::proofs::Repeating::repeated_step, crate::proofs::Repeating::one_further))]
fn check_items<I: Item>(file: &[u8], at: usize, count: u8) -> Result<usize, LoadFault>
    ensures exact { result ≡ repeated (I.checked file.now) I.SIZE count at }
    ensures place { IfOk result (λ v. v ≡ at + I.SIZE * count) }
    ensures within { at ≤ length file.now → IfOk result (λ v. v ≤ length file.now) }
{
    let mut end = at;
    // an item begins where the one before it ends, so there is only their number to go over
    for _i in 0..count {
        I::check(file, end)?;
        end += I::SIZE;
    }
    Ok(end)
}

// The place of the statement of the class whose bytes begin at `at`.
pub fn check_head(file: &[u8], at: usize) -> Result<usize, LoadFault>
    ensures exact { result ≡ check_head file.now at }
    ensures within { IfOk result (λ v. Headed file.now at v) }
{
    let variables = byte_at(file, at);
    field(file, at, 1, variables < 9)?;
    let next = check_items::<Variable>(file, at + 1, variables)?;
    let declarations = byte_at(file, next);
    field(file, next, 1, declarations < 17)?;
    check_items::<Declaration>(file, next + 1, declarations)
}
