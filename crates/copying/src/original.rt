// An operation that is to be copied: its store, its number, and the steps of its walk. What is tested of it and entered goes by these.
ghost use Rattle.std.specs.Prelude.{◌<◌};
ghost use Rattle.layout.specs.Columns.{columns};
ghost use Rattle.layout.specs.Reading.{op_count};
ghost use Rattle.layout.specs.Soundness.{IsSound};
ghost use Rattle.copying.specs.Steps.{AreSteps, are_steps_prop};

use crate::steps::Step;
use layout::columns::StoreWords;

#[derive(Clone, Copy)]
pub struct Original<'a> {
    pub store: &'a StoreWords,
    pub n: usize,
    pub steps: &'a [Step],
    pub ghost sound: { IsSound store.now },
    pub ghost exists: { n < op_count (columns store.now) },
    pub ghost are_steps: { AreSteps store.now n steps.now } by { are_steps_prop store.now n steps.now },
}
