// What is proved of the code's answers, from top to bottom. A function here does nothing: each clause of its contract is a theorem, of
// whatever answers meet the contracts of the offered calls; so the check fails where one of them is not proved.

ghost use Rattle.api.specs.Calls.{AlwaysMade, AfterCalls, IsEmpty};
ghost use Rattle.layout.specs.Columns.{empty_buffer};
ghost use Rattle.laws.specs.Answers.{Demand3OfCode};
ghost use Rattle.laws.specs.Demand2.{Demand2OfCode};
ghost use Rattle.laws.specs.Filing.{FilingOfCode, WordsFit};
ghost use Rattle.laws.specs.Mapped.{MappingLawsOfCode};
ghost use Rattle.laws.specs.Lending.{AllowedAgain};
ghost use Rattle.undo_log.specs.JournalLaws.{CallUndone, CallUndoable, CopyUndone, CutCommutes, CutCommutesAll, CutTwice, CutWhole};
ghost use Rattle.undo_log.specs.JournalLaws.{UndoneParts, CallRead, CopyRead, MarkRead, BackRead, TestsRead, SoundRead, BareSound, CallSound};
ghost use Rattle.undo_log.specs.JournalLaws.{CopySound, MarkSound, BackSound, JournalShort};

// ---- Calls one after the other

// A list of building calls, marks set, goings back and copies can be made on any buffer, whatever the arguments: each call answers. From
// an empty store the buffer then reads as the rules' store after that list, and is sound. A buffer of zeros is an empty store.
pub fn lists_of_calls()
    ensures always_made { AlwaysMade }
    ensures after_calls { AfterCalls }
    ensures zeros_are_empty { IsEmpty empty_buffer }
{}

// ---- Equality and hash

// On such a buffer, under every list of renamed types that is not refused, what comparisons answer is reflexive, and under the premise
// symmetric and transitive; and under the premise fragments that they say are equal are answered one hash.
pub fn laws_of_the_answers()
    ensures { Demand3OfCode }
{}

// On every sound buffer, from every allowed mapping and under every list of types that is not refused, a comparison answers and leaves
// what the rules say, and what pliron does, wherever no list of blocks or operations is met that is one longer on the left; and a hash is
// the rules' and pliron's everywhere.
pub fn agreement_of_the_answers()
    ensures { Demand2OfCode }
{}

// ---- Keys and mappings

// Under the premise of the laws, two keys that were written compare as the same exactly when the comparison of the two fragments answers
// that they are equal. A store that is read from words of 32 bits has numbers of 32 bits.
pub fn filing_by_keys()
    ensures same_key_exactly_when_equal { FilingOfCode }
    ensures words_fit { WordsFit }
{}

// The words of a mapping that an equal comparison leaves pair what the two fragments define, one to one; read backwards they are what the
// comparison the other way leaves; and one followed by another is what the comparison of the first with the last leaves. A mapping that
// any comparison leaves, of an allowed one, is allowed, so that it may be lent again.
pub fn mappings_left()
    ensures laws { MappingLawsOfCode }
    ensures allowed_again { AllowedAgain }
{}

// ---- The journal

// What the journal remembers of an accepted call undoes it, after the store is cut to what it had; a copy is undone by cutting alone.
// Undoing and cutting may be done in either order; a cut to more and then to less is one to less; a cut to what the store has changes
// nothing; and of a list of entries the newer part is undone first.
pub fn undoing_and_cutting()
    ensures call_undone { CallUndone }
    ensures call_undoable { CallUndoable }
    ensures copy_undone { CopyUndone }
    ensures cut_commutes { CutCommutes }
    ensures cut_commutes_all { CutCommutesAll }
    ensures cut_twice { CutTwice }
    ensures cut_whole { CutWhole }
    ensures undone_parts { UndoneParts }
{}

// A store with its journal is read as a store with marks, each of which has the tables as they then stood: an accepted call, a copy, a
// mark set and a going back do to the one what the rules do to the other, and which marks are set and how much is remembered can be told
// from the journal.
pub fn journal_reads_as_marks()
    ensures call_read { CallRead }
    ensures copy_read { CopyRead }
    ensures mark_read { MarkRead }
    ensures back_read { BackRead }
    ensures tests_read { TestsRead }
{}

// A sound journal is read as a sound store with marks; one with nothing in it is sound where the store is; every accepted call keeps it
// sound; and it never has more than 2,048 entries.
pub fn journal_stays_sound()
    ensures sound_read { SoundRead }
    ensures bare_sound { BareSound }
    ensures call_sound { CallSound }
    ensures copy_sound { CopySound }
    ensures mark_sound { MarkSound }
    ensures back_sound { BackSound }
    ensures journal_short { JournalShort }
{}
