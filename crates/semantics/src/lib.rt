// Equal fragments do the same work: specs/ states it, proofs/ shows it, and each law is the contract of a call here.
#![tactic(auto)]

ghost use Rattle.semantics.specs.SameWork.{SameWork, IsomorphicWork, SameWorkFresh, SameWorkAcross, IsomorphicWorkAcross, EqualIsomorphic, EqualExactly};
ghost use Rattle.semantics.specs.Copies.{CopyWork, TwinWork};
ghost use Rattle.semantics.specs.Replaced.{ReplacedWork};
ghost use Rattle.semantics.specs.BlockRuns.{RunWork};
ghost use Rattle.semantics.specs.WorkCases.{WorkCases};

// Equal fragments do the same work, whatever values hold (D), whatever operations read and change besides (W), and whatever an operation
// remembers while it runs (M).
pub fn same_work<D, W, M>()
    ensures { SameWork D W M }
{}

// So do isomorphic fragments.
pub fn isomorphic_work<D, W, M>()
    ensures { IsomorphicWork D W M }
{}

// From registers of which theirs hold nothing they do.
pub fn same_work_fresh<D, W, M>()
    ensures { SameWorkFresh D W M }
{}

// And from registers on either side that agree by the mapping, which what the runs leave does again.
pub fn same_work_across<D, W, M>()
    ensures { SameWorkAcross D W M }
{}

// So do isomorphic ones.
pub fn isomorphic_work_across<D, W, M>()
    ensures { IsomorphicWorkAcross D W M }
{}

// Equal fragments are isomorphic.
pub fn equal_isomorphic()
    ensures { EqualIsomorphic }
{}

// Different fragments under the premise are equal exactly when some mapping is an isomorphism and no name is early.
pub fn equal_exactly()
    ensures { EqualExactly }
{}

// A copy does the same work as its original.
pub fn copy_work<D, W, M>()
    ensures { CopyWork D W M }
{}

// An operation's twin does the same work as it.
pub fn twin_work<D, W, M>()
    ensures { TwinWork D W M }
{}

// A form in which the code of operations is replaced by that of their twins runs as it did.
pub fn replaced_work<D, W, M>()
    ensures { ReplacedWork D W M }
{}

// Equal runs of a block do the same work, where neither names what the other defines.
pub fn run_work<D, W, M>()
    ensures { RunWork D W M }
{}

// The cases of runs.
pub fn work_cases()
    ensures { WorkCases }
{}
