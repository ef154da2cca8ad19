// The same work, of what the offered calls build, answer and leave: each function does nothing, and its contract is a law.

ghost use Rattle.laws.specs.Work.{SameWorkOfCode, TwinWorkOfCode, CopyWorkOfCode, RunWorkOfCode};

// Where an offered comparison says that two fragments are equal, they do the same work by the mapping that it leaves, whatever values hold
// (D), whatever operations read and change besides (W), and whatever an operation remembers while it runs (M).
pub fn same_work_of_code<D, W, M>()
    ensures { SameWorkOfCode D W M }
{}

// So do the operations that `twins_of_operations` tells as twins.
pub fn twin_work_of_code<D, W, M>()
    ensures { TwinWorkOfCode D W M }
{}

// And so does what `clone_operation` has made, as its original, in the store with the copy.
pub fn copy_work_of_code<D, W, M>()
    ensures { CopyWorkOfCode D W M }
{}

// And two runs that `repeated_run` finds do, where neither names what the other defines.
pub fn run_work_of_code<D, W, M>()
    ensures { RunWorkOfCode D W M }
{}
