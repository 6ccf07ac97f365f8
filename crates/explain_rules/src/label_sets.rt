//! The names of the labels of a set.
use base::Labels;
use captext::label_name;
use std::fmt;
use table::Table;

/// The names of the labels of a set, as a sentence has them: in quotes, with commas between them.
#[derive(Clone, Copy)]
pub struct LabelNames<'a> {
    pub table: &'a Table,
    pub labels: Labels,
}

impl fmt::Display for LabelNames<'_> {
    fn fmt<W: fmt::Write>(&self, f: &mut fmt::Formatter<W>) -> fmt::Result {
        let mut is_first = true;
        for label in self.labels.iter() {
            let separator = if is_first { "" } else { ", " };
            let name = label_name(self.table, label);
            write!(f, "{separator}`{name}`")?;
            is_first = false;
        }
        Ok(())
    }
}
