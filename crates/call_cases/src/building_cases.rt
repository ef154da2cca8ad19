// The building calls and marks: a form is built, marks are set and gone back to, and every cause for which these calls refuse is met.
mod answers;
mod calls;
mod form;
mod limits;
mod marking;
mod refusals;
mod soundness;
mod steps;

use crate::lent::Store;
use crate::verdicts::say;
use layout::columns::STORE_LENGTH;
use rules::types::Owner;
use std::io;

// The refusals on a finished form, of which `kept` is a copy.
fn form_refusals(rt: &impl Print, store: &mut Store, kept: &Store) -> io::Result<()> {
    say(
        rt,
        "cause 2, new operation",
        refusals::unnamed_in_operation(store, kept),
    )?;
    say(
        rt,
        "cause 2, other calls",
        refusals::unnamed_elsewhere(store, kept),
    )?;
    say(rt, "cause 4, lists", refusals::too_many(store, kept))?;
    say(rt, "cause 6", refusals::unknown_kind(store, kept))?;
    say(rt, "cause 7", refusals::no_such_operand(store, kept))?;
    say(rt, "cause 16", refusals::no_such_mark(store, kept))?;
    say(
        rt,
        "several causes at once",
        refusals::first_cause(store, kept),
    )
}

// The limits of one owner's lists and keys.
fn owner_limits(rt: &impl Print, store: &mut Store) -> io::Result<()> {
    say(rt, "full lists", limits::full_lists(store))?;
    say(
        rt,
        "cause 4, keys of an operation",
        limits::keys(store, Owner::Op(3)),
    )?;
    say(
        rt,
        "cause 4, keys of a block",
        limits::keys(store, Owner::Block(1)),
    )
}

// All cases of this part.
pub fn run(rt: &impl Print) -> io::Result<()> {
    say(rt, "empty store", soundness::empty_stores())?;
    say(rt, "cause 1", soundness::unsound_stores())?;
    let mut store: Store = [0; STORE_LENGTH];
    say(rt, "form", form::build_twins(&mut store))?;
    say(rt, "form amended", form::amend(&mut store))?;
    let kept = store;
    form_refusals(rt, &mut store, &kept)?;
    say(rt, "marks", marking::gone_back(&mut store))?;
    say(rt, "cause 17", marking::remembered(&mut store))?;
    store = kept;
    owner_limits(rt, &mut store)?;
    say(rt, "cause 5", limits::nesting())?;
    say(rt, "cause 3", limits::totals())
}
