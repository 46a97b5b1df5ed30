//! Laws: each function is empty, and its clause holds of all that the disk sends and takes. The laws of journals are those
//! of `ncq_journal`.
ghost use Rattle.ncq_core.specs.DiskLaws.{CommandIsSpelled, AnswersAreTheseBytes, AnswersSpell, LogAddsUp};
ghost use Rattle.ncq_core.specs.VerdictTable.{WhileRunning, WhileStopped};

pub use ncq_journal::laws::{
    a_cut_leaves_what_the_tags_say, a_cut_shifts_places_alone,
    a_failed_command_has_changed_no_sector, a_journal_is_lawful_at_each_entry,
    a_journal_may_be_cut_where_all_tags_are_free, a_journal_may_follow_any_other,
    a_request_is_answered_by_its_phase, a_tag_past_the_depth_is_free,
    an_ended_request_has_this_answer, an_owned_tag_has_a_request,
    an_unanswered_request_is_its_tags_last, at_most_one_command_has_failed,
    entries_are_numbered_from_the_first, only_a_completed_write_or_a_zero_changes_sectors,
    outstanding_tags_are_active, what_requests_need_is_bounded,
};

/// Bytes carry a command exactly where they spell a Register FIS - Host to Device whose C is 1.
pub fn a_command_is_a_register_fis_with_c()
    ensures { CommandIsSpelled }
{}

/// What the disk does with the bytes of a command, as a table over what they spell.
pub fn the_disk_takes_commands_by_this_table()
    ensures stopped { WhileStopped }
    ensures running { WhileRunning }
{}

/// The bytes of the disk's answers one by one, and that each spells its FIS.
pub fn the_disks_answers_are_these_bytes()
    ensures bytes { AnswersAreTheseBytes }
    ensures spell { AnswersSpell }
{}

/// The bytes of a page of log 10h add up to 0 modulo 256.
pub fn a_log_page_adds_up_to_zero()
    ensures { LogAddsUp }
{}
