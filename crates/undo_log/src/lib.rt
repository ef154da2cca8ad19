// Marks to go back to, without copies of the store: while a mark is set, what a call replaces is remembered in a journal, and going back undoes
// it, the newest entry first, and cuts the tables to the mark's counts. The building calls here remember; `marking` sets a mark and
// `going_back` goes back to one.
#![tactic(auto)]

pub mod adding_calls;
pub mod attributes;
pub mod cutting;
pub mod entries;
pub mod freeing;
pub mod going_back;
pub mod marking;
pub mod operands;
pub mod remembering;
pub mod removing;
pub mod rows;
pub mod undoing;
