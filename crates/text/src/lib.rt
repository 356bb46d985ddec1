// A sheet's fields as text: whole numbers in eight columns, read and written against one definition of a number's text; and a line
// of the printed list.
#![tactic(auto)]

mod digits;
pub mod fields;
pub mod lines;
mod short;

// What eight columns hold. None of the three is an error by itself: which fields may be blank, and what a wrong one means, is for the reader of the record to say (RULES 6.2).
#[derive(Clone, Copy)]
pub enum Field {
    Blank,
    Number(i32),
    Wrong,
}
