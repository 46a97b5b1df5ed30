//! Steps that fail a command with error 40h.
use crate::table_step::TableStep;

/// Tag 0 fails at LBA 0.
pub const FAIL_0: TableStep = TableStep::Fail(0, 0x40, 0);

/// Tag 1 fails at LBA 0.
pub const FAIL_1: TableStep = TableStep::Fail(1, 0x40, 0);

/// Tag 1 fails at LBA 7.
pub const FAIL_1_AT_7: TableStep = TableStep::Fail(1, 0x40, 7);

/// Tag 1 fails at LBA 8.
pub const FAIL_1_AT_8: TableStep = TableStep::Fail(1, 0x40, 8);
