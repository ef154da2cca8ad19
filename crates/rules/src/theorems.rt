// What is proved of the rules, from top to bottom. A function here does nothing: each clause of its contract is a theorem, stated in
// specs/ and proved in proofs/, so the check fails where one of them is not proved.

ghost use Rattle.rules.specs.Laws.{LawsOfSound, Demand3};
ghost use Rattle.rules.specs.MarkLaws.{Demand3Marked, LawsMarked};
ghost use Rattle.rules.specs.TypeLaws.{LawsRenamed};
ghost use Rattle.rules.specs.EqualityLaws.{PremiseNeeded, PremiseNeededThrice, CanonicalEqual};
ghost use Rattle.rules.specs.EqualityLaws.{EqualCanonical, NeverRefused, ComparisonIs, EqualAnswered};
ghost use Rattle.rules.specs.HashLaws.{CanonicalHash, HashedIs};
ghost use Rattle.rules.specs.MappingLaws.{AllowedKept};
ghost use Rattle.rules.specs.MappingLaws.{EntersPaired};
ghost use Rattle.rules.specs.KeyLaws.{KeyEqual, EqualKey, KeyedIs, KeyLongest, FilersLaw, FieldsFitKept, FilersLawAfter};
ghost use Rattle.rules.specs.TypeLaws.{FilersLawRenamed, RenamedSound, RenamedIn, RenamedPremise};
ghost use Rattle.rules.specs.MarkLaws.{FilersLawMarked};
ghost use Rattle.rules.specs.KeyLaws.{TotalOrder};
ghost use Rattle.rules.specs.TypeLaws.{RenamedNone, PresentOnce};
ghost use Rattle.rules.specs.RunLaws.{RepeatedFound, RepeatedNone, RepeatedIs, LongestRun, SameWindow};
ghost use Rattle.rules.specs.RunLaws.{KeptSum, FirstUses};
ghost use Rattle.rules.specs.BuildingLaws.{AcceptedExactly, BuiltSound, AfterSound, NestedAtMost, WalkStays};
ghost use Rattle.rules.specs.BuildingLaws.{LevelsEnough, SizeMost};
ghost use Rattle.rules.specs.EqualityLaws.{PairedMost};
ghost use Rattle.rules.specs.MarkLaws.{MarkedSound, AfterMarkedSound, SoundByGoingBack};
ghost use Rattle.rules.specs.MarkLaws.{UnmarkedAfter, WentBack, WentBackWhole};
ghost use Rattle.rules.specs.CopyLaws.{CopyUncounted, CopyNeverJournalFull, CopyTakenBack};
ghost use Rattle.rules.specs.ListingLaws.{CountedExactly};
ghost use Rattle.rules.specs.ListingLaws.{ShareMost, PerCentNearest, OutputFits};
ghost use Rattle.rules.specs.EqualityLaws.{InherentKept, UnignoredSame};
ghost use Rattle.rules.specs.Agreement.{ComparesAsTheRust, HashesAsTheRust};
ghost use Rattle.rules.specs.ExtentLaws.{SizedIs, ExtentFills, ExtentPaired, ExtentNesting, ExtentRenamed, ExtentMost};
ghost use Rattle.rules.specs.MappingLaws.{SideBySide, MappingLawsOfSound, MappingLawsAfter, MappingLawsMarked};
ghost use Rattle.rules.specs.CopyLaws.{CopySound, CopyFits, CopyAcceptedExactly, CopyEqual, CopyAlike, CopyFiled, CopyPremise};
ghost use Rattle.rules.specs.CopyLaws.{CopyOrder, EarlyUnequal};
ghost use Rattle.rules.specs.Entering.{NotedIs, NotedCount, EnteredInOrder};
ghost use Rattle.rules.specs.Printing.{ListingPrints, SharePrinted};
ghost use Rattle.rules.specs.ConvertLaws.{ConvertedEdition, SameOutput, ThereAndBack, BackAndThere, ConvertFits};
ghost use Rattle.rules.specs.GroupingLaws.{IndependentIs, IndependentAlong, TwinFound, TwinNone, TwinAlike, TwinStays, TwinsTogether};
ghost use Rattle.rules.specs.GroupingLaws.{TwinsShare, TwinlessEqual};
ghost use Rattle.rules.specs.Cases.{AllHold, starred, mistakes, inherent_cases};
ghost use Rattle.rules.specs.ListingCases.{AllPrint, listing_cases, ShareCases};
ghost use Rattle.rules.specs.ConvertCases.{AllConverted, convert_cases};
ghost use Rattle.rules.specs.KeyCases.{KeyCases};
ghost use Rattle.rules.specs.ExtentCases.{ExtentCases};
ghost use Rattle.rules.specs.MappingCases.{MappingCases};
ghost use Rattle.rules.specs.NestingCases.{NestingCases};
ghost use Rattle.rules.specs.TypeCases.{TypeCases};
ghost use Rattle.rules.specs.RunCases.{RunCases};
ghost use Rattle.rules.specs.MarkCases.{MarkCases};
ghost use Rattle.rules.specs.CopyCases.{CopyCases};
ghost use Rattle.rules.specs.GroupingCases.{GroupingCases};

// ---- Equality and hash

// Equality is reflexive, and under the premise symmetric and transitive, and equal fragments have equal hashes. So it is in every sound
// store; in the store that any list of building calls leaves, refused ones among them; where marks are set, gone back to, and operations
// copied in between; and under every list of renamed types. The premise: two fragments are the same one, or they share no operation and
// no block, and neither names what the other defines.
pub fn laws_of_equality_and_hash()
    ensures in_sound_stores { LawsOfSound }
    ensures after_building { Demand3 }
    ensures after_marks_and_copies { Demand3Marked }
    ensures after_building_under_types { LawsRenamed }
    ensures after_marks_and_copies_under_types { LawsMarked }
{}

// The premise is needed. Without it, in small sound stores, one operation is equal to another and not the other way round, their hashes
// differ, and of three operations the first is equal to the second and the second to the third, but the first not to the third.
pub fn premise_of_the_laws()
    ensures needed_for_symmetry_and_hash { PremiseNeeded }
    ensures needed_for_transitivity { PremiseNeededThrice }
{}

// Equality is equality of canonical forms. A fragment's canonical form is its walk, written as a list in which what is defined inside
// stands by its position and not by its number. Fragments with the same form are equal; equal ones have the same form, if they are the
// same fragment or the left one names nothing that the right one defines; and the hash can be computed from the form.
pub fn canonical_forms()
    ensures same_form_is_equal { CanonicalEqual }
    ensures equal_has_same_form { EqualCanonical }
    ensures same_form_same_hash { CanonicalHash }
{}

// pliron's own text, written down as definitions, gives the same verdict, the same pair and the same mapping, wherever no list of blocks
// or operations is met that is one longer on the left; and everywhere the same hash.
pub fn agreement_with_the_rust()
    ensures of_comparisons { ComparesAsTheRust }
    ensures of_hashes { HashesAsTheRust }
{}

// ---- Answers

// In a sound store a comparison of fragments that exist, from an allowed mapping and under a list of renamed types that is not refused,
// is never refused, and answers as the walk of the two does: `eq` exactly when they are equal. A hash is given likewise. The mapping that
// a comparison leaves is allowed, so that it may be lent again; from an empty one it has no more operations and blocks than the
// comparison has counted, and values only where the operation or block that has them is in it.
pub fn answers()
    ensures never_refused { NeverRefused }
    ensures comparison_is_the_walk { ComparisonIs }
    ensures eq_exactly_when_equal { EqualAnswered }
    ensures hash_is_given { HashedIs }
    ensures mapping_stays_allowed { AllowedKept }
    ensures enters_what_it_counts { EntersPaired }
{}

// ---- Keys

// Fragments with the same key are equal, whatever they name. Equal ones have the same key, if they are the same fragment or the left one
// names nothing that the right one defines. A key is written wherever it fits, and has at most 78,344 bytes.
pub fn keys()
    ensures same_key_is_equal { KeyEqual }
    ensures equal_has_same_key { EqualKey }
    ensures written_where_it_fits { KeyedIs }
    ensures longest { KeyLongest }
{}

// What a filer relies on: under the premise, two keys compare as the same exactly when the fragments are equal. So it is in every sound
// store whose numbers have 32 bits; after every list of calls with such arguments, which keep them so; and under every list of such
// types.
pub fn filers_law()
    ensures in_sound_stores { FilersLaw }
    ensures numbers_keep_fitting { FieldsFitKept }
    ensures after_building { FilersLawAfter }
    ensures after_building_under_types { FilersLawRenamed }
    ensures after_marks_and_copies_under_types { FilersLawMarked }
{}

// The order of byte strings is total: any two compare, one way as the other reversed; as the same exactly if they are; and of three,
// where the first is less than the second and the second less than the third, the first is less than the third.
pub fn order_of_keys()
    ensures { TotalOrder }
{}

// The extent of a fragment that exists is given. Its length is how many bytes the key then fills; a comparison that finds the fragment
// equal counts its operations and blocks; its nesting is that of its deepest operation; it depends on no type; and none of its numbers is
// above its limit.
pub fn extents()
    ensures given { SizedIs }
    ensures length_is_what_the_key_fills { ExtentFills }
    ensures counted_by_comparisons { ExtentPaired }
    ensures nesting_of_the_deepest { ExtentNesting }
    ensures same_under_types { ExtentRenamed }
    ensures most { ExtentMost }
{}

// ---- Renamed types

// Under a list of renamed types a sound store stays sound, the same fragments exist in it, and the same ones meet the premise. An empty
// list changes nothing, and looking up a type twice is looking it up once.
pub fn renamed_types()
    ensures stays_sound { RenamedSound }
    ensures same_fragments { RenamedIn }
    ensures same_premise { RenamedPremise }
    ensures empty_list { RenamedNone }
    ensures looked_up_once { PresentOnce }
{}

// ---- Repeated runs

// The two runs that are found lie in the block, do not overlap and are equal, and are the first such: no others have a smaller right
// start, or the same right start and a smaller left one. None are found exactly where there are none. A call for a block that exists and
// a length from 1 to 256 answers so; runs of 256 are never found.
pub fn repeated_runs()
    ensures found { RepeatedFound }
    ensures none_exactly_when_there_are_none { RepeatedNone }
    ensures answered { RepeatedIs }
    ensures longest { LongestRun }
{}

// Looking for runs by sums of their operations' hashes misses none: equal runs have equal sums, the sum kept from one start to the next
// is the next one's, and the first operations of equal runs have the same operands, but for results of the left run's own operations.
pub fn window_sums()
    ensures equal_runs_have_equal_sums { SameWindow }
    ensures kept_sum_is_the_next { KeptSum }
    ensures same_first_operands { FirstUses }
{}

// ---- Building

// A call that names only what exists, with an operand index and an attribute kind within their ranges, is accepted exactly when the store
// with it done is sound: no limit refuses anything while there is room. A call, accepted or refused, keeps a sound store sound, and so
// does a list of them from the empty store.
pub fn building()
    ensures accepted_exactly { AcceptedExactly }
    ensures built_sound { BuiltSound }
    ensures after_sound { AfterSound }
{}

// In a sound store an operation has at most 32 regions around it, a walk goes only to what exists and has levels enough to come to its
// end, a fragment has at most 512 operations inside, and a comparison counts at most 768 operations and blocks.
pub fn nesting_and_size()
    ensures nested_at_most { NestedAtMost }
    ensures walk_stays { WalkStays }
    ensures levels_enough { LevelsEnough }
    ensures size_most { SizeMost }
    ensures paired_most { PairedMost }
{}

// ---- Marks

// Every call, accepted or refused, keeps a sound store with marks sound, and so does a list of them from the empty store. A store whose
// marks are in order is sound exactly when going back, to any marks one after the other, gives sound tables each time. Where no mark is
// set, building calls do what they do without marks.
pub fn soundness_with_marks()
    ensures marked_sound { MarkedSound }
    ensures after_marked_sound { AfterMarkedSound }
    ensures sound_by_going_back { SoundByGoingBack }
    ensures unmarked_after { UnmarkedAfter }
{}

// Going back to a mark, which was not set again and is set still, gives the store as it stood when the mark was set, with the marks that
// were set then and have not been set again; where none was set again, all is as it was, so that every call is answered as it was then.
pub fn going_back()
    ensures went_back { WentBack }
    ensures went_back_whole { WentBackWhole }
{}

// ---- Mappings

// The mapping that an equal comparison leaves, begun with an empty one, pairs what the left fragment defines with what the right one
// does, one to one, in the order of the walk. Under the premise, or where the comparisons named are equal, it is the mapping the other
// way when read backwards, and one followed by another is the mapping of the first with the last.
pub fn filed_mappings()
    ensures side_by_side { SideBySide }
    ensures in_sound_stores { MappingLawsOfSound }
    ensures after_building { MappingLawsAfter }
    ensures after_marks_and_copies_under_types { MappingLawsMarked }
{}

// ---- Copies

// An accepted copy keeps a sound store sound, and numbers of 32 bits stay such. Where what is named exists, the place is not inside the
// original and nothing inside is named too early, a copy is accepted exactly when the store with it is sound.
pub fn accepted_copies()
    ensures sound { CopySound }
    ensures numbers_keep_fitting { CopyFits }
    ensures accepted_exactly { CopyAcceptedExactly }
{}

// The pairs that a comparison enters, in order, are told by the comparison once more, which besides notes them: without its notes it is the
// comparison, and it notes as many pairs as the comparison counts. Where it doesn't fail, they are what the two fragments define, side by
// side, in the order of the walk.
pub fn entered_pairs()
    ensures is_the_comparison { NotedIs }
    ensures as_many_as_counted { NotedCount }
    ensures in_order_of_the_walk { EnteredInOrder }
{}

// A copy is equal to its original, both ways, under every ignore rule and list of renamed types, with the same hash and key; the two meet
// the premise; the comparison leaves the mapping of the copier; and what is copied has the next numbers in the order in which the comparison
// enters pairs. Where all that is wrong is a name that comes too early, a copy would not be equal.
pub fn copies_are_twins()
    ensures equal { CopyEqual }
    ensures alike { CopyAlike }
    ensures mapping_is_the_copiers { CopyFiled }
    ensures numbered_in_order { CopyOrder }
    ensures meet_the_premise { CopyPremise }
    ensures too_early_is_unequal { EarlyUnequal }
{}

// A copy is no replacement: it leaves the marks as they are, is never refused for want of room to remember, and going back takes it away.
pub fn copies_and_marks()
    ensures uncounted { CopyUncounted }
    ensures never_out_of_room { CopyNeverJournalFull }
    ensures taken_back { CopyTakenBack }
{}

// ---- Listings

// A listing prints what its lines print, one behind the other, and then what its program prints at the end, or the refusal of a line. So one
// without a refusal prints its answers and then the share of what its lines have counted.
pub fn printed_listings()
    ensures parts { ListingPrints }
    ensures share_at_the_end { SharePrinted }
{}

// What the program `twins` has counted after any lines: each operation inside a right fragment that was asked about, and each inside one
// that was found equal, all as they stood when asked about. The share of these in those is at most 100; it is the nearest whole number of
// per cent, and the even one where two are equally near. The output of every listing fits.
pub fn listings()
    ensures counted_exactly { CountedExactly }
    ensures share_most { ShareMost }
    ensures per_cent_nearest { PerCentNearest }
    ensures output_fits { OutputFits }
{}

// A converted listing is one of the other edition, and both programs print the same for it, line numbers and causes included, and build
// the same store. Converted twice, a listing of edition 2 is what it was, and one of edition 1 is too, but that its labels are 0. What is
// printed fits where a listing does.
pub fn converter()
    ensures other_edition { ConvertedEdition }
    ensures same_output { SameOutput }
    ensures there_and_back { ThereAndBack }
    ensures back_and_there { BackAndThere }
    ensures fits { ConvertFits }
{}

// ---- Independence and twins

// The test of independence holds exactly where the premise of the laws does. Where it holds of a first and a second fragment and of the
// second and a third, and these are equal, it holds of the first and the third.
pub fn independence()
    ensures is_the_premise { IndependentIs }
    ensures along_equality { IndependentAlong }
{}

// An operation's twin is the first one before it that is independent of it and equal to it, and it has none exactly where there is no
// such one. The two are equal the other way too, with one hash and one key.
pub fn twins()
    ensures found { TwinFound }
    ensures none_exactly_when_there_is_none { TwinNone }
    ensures alike { TwinAlike }
{}

// So operations fall into groups, each with its first one: an operation's twin has no twin itself; two operations with the same twin are
// equal and independent; and of two such, the later one's twin is the earlier one's, or the earlier one where that has none. Without the
// premise an operation that has no twin may be equal to an earlier one.
pub fn groups_of_twins()
    ensures twin_has_none { TwinStays }
    ensures one_twin_makes_twins { TwinsTogether }
    ensures twins_have_one_twin { TwinsShare }
    ensures premise_needed { TwinlessEqual }
{}

// ---- Attributes

// Equal fragments have the same inherent attributes at each place of the walk, whatever is ignored. Of two lists of attributes by rising
// key, what is not ignored is the same exactly when it is equally long and each such attribute of the one stands in the other.
pub fn attributes()
    ensures inherent_kept { InherentKept }
    ensures unignored_same { UnignoredSame }
{}

// ---- Computed cases

// The examples of the specification that are to be proved: stores, what is asked of them, and what is answered; those that a porter's
// mistakes fail; and those of attributes that cannot be ignored.
pub fn cases_of_comparisons()
    ensures starred { AllHold starred }
    ensures mistakes { AllHold mistakes }
    ensures inherent { AllHold inherent_cases }
{}

// Listings, and what is printed for them; shares; and listings converted.
pub fn cases_of_listings()
    ensures printed { AllPrint listing_cases }
    ensures shares { ShareCases }
    ensures converted { AllConverted convert_cases }
{}

// Keys byte by byte, extents number by number, mappings entry by entry; operations nested as deep as they may be; lists of renamed types;
// repeated runs; marks set and gone back to; copies; and twins.
pub fn cases_of_calls()
    ensures keys { KeyCases }
    ensures extents { ExtentCases }
    ensures mappings { MappingCases }
    ensures nesting { NestingCases }
    ensures types { TypeCases }
    ensures runs { RunCases }
    ensures marks { MarkCases }
    ensures copies { CopyCases }
    ensures twins { GroupingCases }
{}
