//! Laws: each function is empty, and its clause holds of all journals.
ghost use Rattle.ncq_journal.specs.Laws.{LawfulAtEach, FreePastDepth, OwnedHasRequest, RequestIsItsIssue, AnsweredByPhase, OwedIsFew, OwedMoves};
ghost use Rattle.ncq_journal.specs.Laws.{WritesItsSectors, ZeroesItsSectors, OthersWriteNothing, CompletedIsAnswered, FailedIsNotCompleted, CompletedHasThisAnswer};
ghost use Rattle.ncq_journal.specs.Laws.{FailedHasThisAnswer, UnansweredIsLast, OneHasFailed, HaltedByATag, BusyByATag, DeviceTagsInSact, CiInSact, SectorsFollow, AnswersFollow, AnswersStay, TwoParts};
ghost use Rattle.ncq_journal.specs.Laws.{PhaseOfParts, SaidOfLater, LawfulOfParts, RequestOfParts, AnswerOfParts, AnswerOfEarlier};
ghost use Rattle.ncq_journal.specs.Laws.{NumberOfPlace, NoneBelowFirst, NoneFromEnd, NumbersDiffer};
ghost use Rattle.ncq_journal.specs.Halted.{halted, busy};
ghost use Rattle.ncq_journal.specs.Owed.{owed};
ghost use Rattle.ncq_journal.specs.Tags.{sact, ci, device_tags};

/// A journal is lawful exactly where each of its entries was allowed by the entries before it.
pub fn a_journal_is_lawful_at_each_entry()
    ensures { LawfulAtEach }
{}

/// A tag at or above the depth is free.
pub fn a_tag_past_the_depth_is_free()
    ensures { FreePastDepth }
{}

/// A tag that is not free has a request, and the entry of a request's number is its Issue.
pub fn an_owned_tag_has_a_request()
    ensures has { OwnedHasRequest }
    ensures issue { RequestIsItsIssue }
{}

/// A request is answered exactly when its tag is done, broken or rejected since, or was collected after that.
pub fn a_request_is_answered_by_its_phase()
    ensures { AnsweredByPhase }
{}

/// What all requests can still need is at most 128 entries, and each entry moves it by a fixed number.
pub fn what_requests_need_is_bounded()
    ensures few { OwedIsFew }
    ensures moves { OwedMoves }
{}

/// A completed write and a Zero change exactly their sectors, and every other entry changes none.
pub fn only_a_completed_write_or_a_zero_changes_sectors()
    ensures write { WritesItsSectors }
    ensures zero { ZeroesItsSectors }
    ensures others { OthersWriteNothing }
{}

/// Each Complete answers the request whose command it completes, and not with an error. Since of all queued commands
/// only the Complete of a write changes a sector, one that failed has changed none: no Complete carries a request that was answered with
/// an error.
pub fn a_failed_command_has_changed_no_sector()
    ensures completed { CompletedIsAnswered }
    ensures failed { FailedIsNotCompleted }
{}

/// What a Complete and a Fail answer to the request that they end, in full.
pub fn an_ended_request_has_this_answer()
    ensures completed { CompletedHasThisAnswer }
    ensures failed { FailedHasThisAnswer }
{}

/// A request that has no answer yet is the last of its tag.
pub fn an_unanswered_request_is_its_tags_last()
    ensures { UnansweredIsLast }
{}

/// At most one command has failed. On a port of at most 32 slots a port has halted exactly where some command has, and is
/// busy exactly where some command waits or is outstanding.
pub fn at_most_one_command_has_failed()
    ensures one { OneHasFailed }
    ensures halted { HaltedByATag }
    ensures busy { BusyByATag }
{}

/// The tags outstanding in the device and those of PxCI are among those of PxSACT.
pub fn outstanding_tags_are_active()
    ensures device { DeviceTagsInSact }
    ensures ci { CiInSact }
{}

/// A lawful journal may follow any other, whose requests were dropped: each sector and each answer of its own is that of both
/// journals, with places that are counted on from the earlier one's length. And a request that has its answer keeps it.
#[tactic(auto, using(crate::proofs::PartLemmas::sector_following, crate::proofs::CutLemmas::answer_following, crate::proofs::CutLemmas::answer_stays))]
pub fn a_journal_may_follow_any_other()
    ensures sectors { SectorsFollow }
    ensures answers { AnswersFollow }
    ensures answered { AnswersStay }
{}

/// Where every tag is free between two parts of a journal, the later part is a lawful journal of its own, and the image
/// after both is that of the later part over the image after the earlier one.
pub fn a_journal_may_be_cut_where_all_tags_are_free()
    ensures { TwoParts }
{}

/// Where every tag is free between two parts of a journal, the tags of PxSACT, of PxCI and of the device after both are those
/// after the later one alone, and so is whether the port has halted or is busy, and what its requests can still need.
#[tactic(auto, using(crate::proofs::CutLemmas::sact_of_parts, crate::proofs::CutLemmas::ci_of_parts, crate::proofs::CutLemmas::device_tags_of_parts, crate::proofs::PartLemmas::halted_parts, crate::proofs::PartLemmas::busy_parts, crate::proofs::CutLemmas::owed_of_parts))]
pub fn a_cut_leaves_what_the_tags_say()
    ensures sact { SaidOfLater sact }
    ensures ci { SaidOfLater ci }
    ensures device { SaidOfLater device_tags }
    ensures halted { SaidOfLater halted }
    ensures busy { SaidOfLater busy }
    ensures owed { SaidOfLater owed }
{}

/// Where every tag is free between two parts of a journal, what comes later knows of the earlier part by its image and its
/// length alone: each tag's phase, what may come, each request and each answer is that of the later part, with places that
/// are counted on from the earlier part's length. And the earlier part's requests keep their answers.
#[tactic(auto, using(crate::proofs::PartLemmas::phase_parts, crate::proofs::CutLemmas::lawful_of_parts, crate::proofs::CutLemmas::request_of_parts, crate::proofs::CutLemmas::answer_of_earlier))]
pub fn a_cut_shifts_places_alone()
    ensures phase { PhaseOfParts }
    ensures lawful { LawfulOfParts }
    ensures request { RequestOfParts }
    ensures answer { AnswerOfParts }
    ensures earlier { AnswerOfEarlier }
{}

/// The entries of a journal are numbered without a gap from its first number on, and nothing else has one of these numbers.
#[tactic(auto, using(crate::proofs::NumberLemmas::number_of_place, crate::proofs::NumberLemmas::none_below_first, crate::proofs::NumberLemmas::none_from_end, crate::proofs::NumberLemmas::numbers_differ))]
pub fn entries_are_numbered_from_the_first()
    ensures place { NumberOfPlace }
    ensures below { NoneBelowFirst }
    ensures end { NoneFromEnd }
    ensures apart { NumbersDiffer }
{}
