//! The rows of one key in as little memory as they need.
ghost use Rattle.std.specs.Prelude.{◌≡◌, ◌≤◌, ◌++◌, ◌∷◌, [], ℕ, List, length, true, IfOk, IfErr, OnOk, OnErr, nat_lt};
ghost use Rattle.std.specs.Prelude.{option_copied};
ghost use Rattle.std.specs.List.{items_where_true};
ghost use Rattle.hlc_rows.specs.Rows.{answer};
ghost use Rattle.hlc_table_column.specs.{Forms.cells_in_form, Forms.has_room, Rows.rows_of};

use crate::few::Few;
use crate::lanes::{Lanes, fetched_value};
use crate::lists::Lists;
use crate::single::Single;
use hlc_clock::Stamp;
use hlc_rows::{Bytes, ValueOrMark};
use hlc_table_flags::Flags;
use hlc_values::{Filled, NoMemory};
use std::alloc::{AllocFailed, Global};
use std::marker::Model;
use std::mem::replace;
use std::slice::from_ref;

/// Where the rows are stored. One row is in place: its fields are beside the tag, so that a form has 48 bytes.
#[derive(Debug, Drop)]
pub(crate) enum Form {
    Empty,
    One {
        node: u16,
        stamp: u64,
        value: ValueOrMark,
    },
    Two(Box<Few<2>>),
    Four(Box<Few<4>>),
    Many(Box<Lists<0>>),
}

/// The rows of one key in arrival order, in as little memory as they need: one row in place, two in a block for two,
/// three and four in a block for four, and more in lists that grow by half and have an index from 17 rows on. In
/// contracts it is the list of their cells.
#[derive(Debug, Drop)]
pub struct Rows {
    form: Form,
}

impl Model for Rows {
    ghost use Rattle.std.specs.Prelude.{List};
    ghost use Rattle.hlc_table_column.specs.Cells.{Cell};
    ghost use Rattle.hlc_table_column.specs.Forms.{cells_in_form};

    ghost Value = { List Cell };

    ghost view = { λ rows. cells_in_form rows.form };
}

impl Rows {
    /// Returns one row, which needs no memory.
    pub fn of_row(stamp: Stamp, node: u16, value: Option<Bytes>) -> Rows
        ensures { result ≡ record { stamp = stamp; node = node; value = value } ∷ [] }
    {
        Rows {
            form: in_place(Single::new(stamp, node, value)),
        }
    }

    /// Returns the number of rows.
    pub fn len(&self) -> usize
        ensures { result ≡ length self.now }
    {
        match &self.form {
            Form::Empty => 0,
            Form::One { .. } => 1,
            Form::Two(block) => block.len(),
            Form::Four(block) => block.len(),
            Form::Many(lists) => lists.len(),
        }
    }

    /// Returns the rows, lent.
    pub fn lanes(&self) -> Lanes<'_>
        ensures { result ≡ self.now }
    {
        match &self.form {
            Form::Empty => Lanes::new(&[], &[], &[], &[]),
            Form::One { node, stamp, value } => {
                Lanes::new(from_ref(stamp), from_ref(node), from_ref(value), &[])
            }
            Form::Two(block) => block.lanes(),
            Form::Four(block) => block.lanes(),
            Form::Many(lists) => lists.lanes(),
        }
    }

    /// Returns the value that a reader at the bound sees, or None for a deletion mark or if there is no row. One row in
    /// place costs one comparison.
    #[inline]
    pub fn answer(&self, bound: Stamp) -> Option<&[u8]>
        ensures { (key : List ℕ) → option_copied result ≡ answer (rows_of key self.now) key bound }
    {
        match &self.form {
            Form::Empty => None,
            Form::One { stamp, value, .. } => answer_of_one(*stamp, value, bound),
            Form::Two(block) => block.lanes().answer_of_few(bound),
            Form::Four(block) => block.lanes().answer_of_few(bound),
            Form::Many(lists) => lists.lanes().answer(bound),
        }
    }

    /// Reads a row in place with its value, the block of a few rows, or the last row of lists, for a caller that goes
    /// through many keys and then reads the newest row of each: none of these reads waits for those of another key. The
    /// number that it returns has no meaning. It only keeps the compiler from leaving the reads out.
    #[inline]
    pub fn fetched(&self) -> u64 {
        match &self.form {
            Form::Empty => 0,
            Form::One { value, .. } => fetched_value(value),
            Form::Two(block) => block.fetched(),
            Form::Four(block) => block.fetched(),
            Form::Many(lists) => lists.lanes().fetched(),
        }
    }

    /// Appends a row. If memory runs out, nothing is changed. The first row needs none, and neither does the fourth
    /// after a third; if only memory for the index runs out, the push succeeds, and reads scan more rows until a later
    /// row extends the index.
    pub fn push(
        &mut self,
        alloc: Global,
        stamp: Stamp,
        node: u16,
        value: Option<Bytes>,
    ) -> Result<(), NoMemory>
        ensures ok { OnOk result (self.new
            ≡ self.old ++ record { stamp = stamp; node = node; value = value } ∷ []) }
        ensures grows { length self.old ≤ length self.new }
        ensures unchanged { OnErr result (self.new ≡ self.old) }
    {
        if !has_room(&self.form) {
            enlarge(alloc, &mut self.form)?;
        }
        push_reserved(&mut self.form, Single::new(stamp, node, value));
        Ok(())
    }

    /// Keeps only the flagged rows, in their order. It needs no memory. If one row is left, it moves in place, and if
    /// none is, nothing is: what the rows were in is freed. Otherwise they stay where they were, in lists that give
    /// back what they do not use.
    pub fn keep(&mut self, keep: &Flags<'_>)
        requires { length keep.now ≡ length self.old }
        ensures { self.new ≡ items_where_true keep.now self.old }
    {
        let form = replace(&mut self.form, Form::Empty);
        self.form = kept(form, keep);
    }
}

impl Filled for Rows {
    ghost is_filled = { λ cells. nat_lt 0 (length cells) };

    fn is_filled(&self) -> bool {
        self.len() > 0
    }
}

/// Returns the value of the only row, if it is at or below the bound.
#[inline]
fn answer_of_one(stamp: u64, value: &ValueOrMark, bound: Stamp) -> Option<&[u8]>
    ensures { (key : List ℕ) (node : ℕ) → option_copied result
        ≡ answer (rows_of key (record { stamp = stamp; node = node; value = value.now } ∷ [])) key bound }
{
    if stamp > bound.bits() {
        return None;
    }
    value.as_slice()
}

/// Stores a row in place.
fn in_place(row: Single) -> Form
    ensures { cells_in_form result ≡ row ∷ [] }
{
    let Single { node, stamp, value } = row;
    Form::One { node, stamp, value }
}

/// Returns whether one more row fits where the rows are.
fn has_room(form: &Form) -> bool
    ensures { result ≡ has_room form.now }
{
    match form {
        Form::Empty => true,
        Form::One { .. } => false,
        Form::Two(block) => block.len() < 2,
        Form::Four(block) => block.len() < 4,
        Form::Many(lists) => lists.has_room(),
    }
}

/// Appends a row in place, for which there must be room.
fn push_reserved(form: &mut Form, row: Single)
    requires { has_room form.old ≡ true }
    ensures { cells_in_form form.new ≡ cells_in_form form.old ++ row ∷ [] }
{
    match form {
        Form::Empty => *form = in_place(row),
        Form::One { .. } => unreachable!(),
        Form::Two(block) => block.push(row),
        Form::Four(block) => block.push(row),
        Form::Many(lists) => lists.push_reserved(row),
    }
}

/// Makes room for one more row in a larger form. If memory runs out, the rows stay as they were.
fn enlarge(alloc: Global, form: &mut Form) -> Result<(), NoMemory>
    ensures cells { cells_in_form form.new ≡ cells_in_form form.old }
    ensures ok { OnOk result (has_room form.new ≡ true) }
{
    let full = replace(form, Form::Empty);
    match larger(alloc, full) {
        Ok(roomy) => {
            *form = roomy;
            Ok(())
        }
        Err(failed) => {
            *form = failed.value;
            Err(NoMemory)
        }
    }
}

/// Returns the same rows where one more fits. If memory runs out, the error returns them as they were.
fn larger(alloc: Global, form: Form) -> Result<Form, AllocFailed<Form>>
    ensures ok { IfOk result (λ roomy. cells_in_form roomy ≡ cells_in_form form) }
    ensures room { IfOk result (λ roomy. has_room roomy ≡ true) }
    ensures err { IfErr result (λ failed. cells_in_form failed.value ≡ cells_in_form form) }
{
    match form {
        Form::Empty => Ok(Form::Empty),
        Form::One { node, stamp, value } => in_two(alloc, Single { node, stamp, value }),
        Form::Two(block) => in_four(alloc, block),
        Form::Four(block) => in_lists(alloc, block),
        Form::Many(lists) => in_longer(lists),
    }
}

/// Returns a row in a block for two.
fn in_two(alloc: Global, first: Single) -> Result<Form, AllocFailed<Form>>
    ensures ok { IfOk result (λ form. cells_in_form form ≡ first ∷ []) }
    ensures room { IfOk result (λ form. has_room form ≡ true) }
    ensures err { IfErr result (λ failed. cells_in_form failed.value ≡ first ∷ []) }
{
    let Ok(mut block) = Box::new(alloc, Few::<2>::new()) else {
        return Err(AllocFailed {
            value: in_place(first),
        });
    };
    block.push(first);
    Ok(Form::Two(block))
}

/// Returns the rows of a block for two in a block for four.
fn in_four(alloc: Global, block: Box<Few<2>>) -> Result<Form, AllocFailed<Form>>
    ensures ok { IfOk result (λ form. cells_in_form form ≡ block.value) }
    ensures room { IfOk result (λ form. has_room form ≡ true) }
    ensures err { IfErr result (λ failed. cells_in_form failed.value ≡ block.value) }
{
    let Ok(mut larger) = Box::new(alloc, Few::<4>::new()) else {
        return Err(AllocFailed {
            value: Form::Two(block),
        });
    };
    Box::into_inner(block).pour(&mut larger);
    Ok(Form::Four(larger))
}

/// Returns the rows of a block for four in lists.
fn in_lists(alloc: Global, block: Box<Few<4>>) -> Result<Form, AllocFailed<Form>>
    ensures ok { IfOk result (λ form. cells_in_form form ≡ block.value) }
    ensures room { IfOk result (λ form. has_room form ≡ true) }
    ensures err { IfErr result (λ failed. cells_in_form failed.value ≡ block.value) }
{
    let Ok(mut lists) = lists_for_eight(alloc) else {
        return Err(AllocFailed {
            value: Form::Four(block),
        });
    };
    Box::into_inner(block).pour_in_lists(&mut lists);
    Ok(Form::Many(lists))
}

/// Returns lists without a row, with room for eight.
fn lists_for_eight(alloc: Global) -> Result<Box<Lists<0>>, NoMemory>
    ensures cells { IfOk result (λ lists. lists.value.cells ≡ []) }
    ensures room { IfOk result (λ lists. 8 ≤ lists.value.room) }
{
    let lists = Lists::with_room(alloc, 8)?;
    Ok(Box::new(alloc, lists)?)
}

/// Returns the same lists with room for one more row.
fn in_longer(lists: Box<Lists<0>>) -> Result<Form, AllocFailed<Form>>
    ensures ok { IfOk result (λ form. cells_in_form form ≡ lists.value.cells) }
    ensures room { IfOk result (λ form. has_room form ≡ true) }
    ensures err { IfErr result (λ failed. cells_in_form failed.value ≡ lists.value.cells) }
{
    let mut lists = lists;
    if lists.reserve().is_err() {
        return Err(AllocFailed {
            value: Form::Many(lists),
        });
    }
    Ok(Form::Many(lists))
}

/// Returns the flagged rows, in their order.
fn kept(form: Form, keep: &Flags<'_>) -> Form
    requires { length keep.now ≡ length (cells_in_form form) }
    ensures { cells_in_form result ≡ items_where_true keep.now (cells_in_form form) }
{
    match form {
        Form::Empty => Form::Empty,
        Form::One { node, stamp, value } => {
            if keep.is_set(0) {
                Form::One { node, stamp, value }
            } else {
                Form::Empty
            }
        }
        Form::Two(block) => {
            let mut block = block;
            block.keep(keep);
            smaller_than_two(block)
        }
        Form::Four(block) => {
            let mut block = block;
            block.keep(keep);
            smaller_than_four(block)
        }
        Form::Many(lists) => {
            let mut lists = lists;
            lists.keep(keep);
            smaller_than_lists(lists)
        }
    }
}

/// Returns the rows of a block for two, in place if there is one.
fn smaller_than_two(block: Box<Few<2>>) -> Form
    ensures { cells_in_form result ≡ block.value }
{
    match block.len() {
        0 => Form::Empty,
        1 => in_place(Box::into_inner(block).into_row()),
        _ => Form::Two(block),
    }
}

/// Returns the rows of a block for four, in place if there is one.
fn smaller_than_four(block: Box<Few<4>>) -> Form
    ensures { cells_in_form result ≡ block.value }
{
    match block.len() {
        0 => Form::Empty,
        1 => in_place(Box::into_inner(block).into_row()),
        _ => Form::Four(block),
    }
}

/// Returns the rows of lists, in place if there is one, and otherwise in lists that give back what they do not use.
fn smaller_than_lists(lists: Box<Lists<0>>) -> Form
    ensures { cells_in_form result ≡ lists.value.cells }
{
    match lists.len() {
        0 => Form::Empty,
        1 => in_place(Box::into_inner(lists).into_row()),
        _ => {
            let mut lists = lists;
            lists.shrink();
            Form::Many(lists)
        }
    }
}
