// A merge plan for a form: specs/ states it, proofs/ shows it, and each law is the contract of a call here.
#![tactic(auto)]

ghost use Rattle.planning.specs.PlanLaws.{PlanRuled, PlanOnly, PlanWhole, PlannedTwin, SmallestStands, StandsKept, KeptTwinless, KeptFirst, MergedApart, InsideIs, GoneExactly, SizeCounts, WordsRead, SavedCounts};
ghost use Rattle.planning.specs.PlanWork.{PlanWork};
ghost use Rattle.planning.specs.PlanCases.{PlanCases};
ghost use Rattle.planning.specs.Redirects.{OneImage, ImagesShrink, Redirected, ResultsBeside, RootsAlone};

// The plan is made by the rule, apart from any search.
pub fn plan_ruled()
    ensures { PlanRuled }
{}

// No other is.
pub fn plan_only()
    ensures { PlanOnly }
{}

// The plan has a fate for each operation.
pub fn plan_whole()
    ensures { PlanWhole }
{}

// What stands for another comes before it, and is its twin.
pub fn planned_twin()
    ensures { PlannedTwin }
{}

// It is the smallest twin that is not inside a merged operation.
pub fn smallest_stands()
    ensures { SmallestStands }
{}

// What stands for another is kept.
pub fn stands_kept()
    ensures { StandsKept }
{}

// A kept operation has no earlier twin that is kept.
pub fn kept_twinless()
    ensures { KeptTwinless }
{}

// Each earlier twin of a kept operation is inside a merged one.
pub fn kept_first()
    ensures { KeptFirst }
{}

// Merged fragments share no operation.
pub fn merged_apart()
    ensures { MergedApart }
{}

// An operation that is said to be inside a merged one is.
pub fn inside_is()
    ensures { InsideIs }
{}

// Those that are not kept are those of the merged fragments.
pub fn gone_exactly()
    ensures { GoneExactly }
{}

// The size of a fragment is the number of its operations.
pub fn size_counts()
    ensures { SizeCounts }
{}

// The words of a plan are read as the plan.
pub fn words_read()
    ensures { WordsRead }
{}

// Those that are not kept are as many as the merged fragments have.
pub fn saved_counts()
    ensures { SavedCounts }
{}

// What a merged fragment defines has exactly one image, in what stands for it.
pub fn one_image()
    ensures { OneImage }
{}

// An image that goes too does so with a smaller fragment.
pub fn images_shrink()
    ensures { ImagesShrink }
{}

// From image to image each value, block and operation leads to one that stays.
pub fn redirected()
    ensures { Redirected }
{}

// Results have results as images.
pub fn results_beside()
    ensures { ResultsBeside }
{}

// Where regions hide what they define, only results of merged operations are named from outside.
pub fn roots_alone()
    ensures { RootsAlone }
{}

// A form in which merged operations run the code of what stands for them does the same work.
pub fn plan_work<D, W, M>()
    ensures { PlanWork D W M }
{}

// The cases.
pub fn plan_cases()
    ensures { PlanCases }
{}
