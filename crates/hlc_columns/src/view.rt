//! A table as readers at one stamp see it.
ghost use Rattle.std.specs.Prelude.{◌≡◌, option_copied};
ghost use Rattle.hlc_rows.specs.Rows.{answer};
ghost use Rattle.hlc_columns.specs.{Answers.AreAnswers, Answers.AreAnswersBack, Answers.IsBetween, Sizes.AreSizes};

use crate::answers::{Answers, AnswersBack};
use crate::table::Table;
use hlc_clock::Stamp;
use hlc_table_sizes::Sizes;
use std::marker::Model;

/// A table as readers at one stamp see it. No call needs memory. In contracts it is the rows and the stamp.
#[derive(Debug, Drop)]
pub struct ReadView<'a> {
    table: &'a Table,
    stamp: Stamp,
}

impl<'a> Model for ReadView<'a> {
    ghost use Rattle.hlc_columns.specs.View.{Seen};

    ghost Value = { Seen };

    ghost view = { λ view. record { rows = view.table.now; stamp = view.stamp } };
}

impl<'a> ReadView<'a> {
    /// Returns a view of a table at a stamp.
    pub fn new(table: &'a Table, stamp: Stamp) -> ReadView<'a>
        ensures { result ≡ record { rows = table.now; stamp = stamp } }
    {
        ReadView { table, stamp }
    }

    /// Returns the stamp.
    pub fn stamp(&self) -> Stamp
        ensures { result ≡ self.now.stamp }
    {
        self.stamp
    }

    /// Returns the sizes of the table, whose rows readers may see or not.
    pub fn sizes(&self) -> Sizes
        ensures { AreSizes self.now.rows result }
    {
        self.table.sizes()
    }

    /// Returns the value of a key, if it has one.
    pub fn get(&self, key: &[u8]) -> Option<&'a [u8]>
        ensures { option_copied result ≡ answer self.now.rows key.now self.now.stamp }
    {
        self.table.answer(key, self.stamp)
    }

    /// Returns an iterator of the keys that have a value, in byte order, with that value.
    pub fn iter(&self) -> Answers<'a>
        ensures { AreAnswers self.now.rows self.now.stamp (λ key. Unit {0}) result }
    {
        self.table.answers(self.stamp)
    }

    /// Returns what `iter` returns for the keys that are not below `from`, and below `to`, if there is one.
    pub fn range(&self, from: &[u8], to: Option<&'a [u8]>) -> Answers<'a>
        ensures { AreAnswers self.now.rows self.now.stamp
            (IsBetween from.now (option_copied to.entry)) result }
    {
        self.table.answers_between(self.stamp, from, to)
    }

    /// Returns the same against byte order, the last key first.
    pub fn range_back(&self, from: &'a [u8], to: Option<&[u8]>) -> AnswersBack<'a>
        ensures { AreAnswersBack self.now.rows self.now.stamp
            (IsBetween from.now (option_copied to.entry)) result }
    {
        self.table.answers_back(self.stamp, from, to)
    }
}
