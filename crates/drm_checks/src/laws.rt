//! Laws of files that are checked and updated, each on a function that does nothing.

ghost use Rattle.drm_checks.specs.Checks.{CheckedFilesAreScripts};
ghost use Rattle.drm_checks.specs.Updates.{UpdatedFilesPass};

/// Proves that a checked file gets the answers that the script of its lines without expectations gets.
pub fn checked_files_are_scripts()
    ensures { CheckedFilesAreScripts }
{}

/// Proves that an updated file passes its check. The device must begin with the same topology and limits and answer the
/// same. All lines are then used, and all expectations are met.
pub fn updated_files_pass()
    ensures { UpdatedFilesPass }
{}
