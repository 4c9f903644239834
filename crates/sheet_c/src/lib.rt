//! The C entry of the sheet, which include/level_control.h declares. `tests/build sheet_c` writes the archive.
#![tactic(auto)]

ghost use Rattle.std.specs.Prelude.{◌≡◌};
ghost use Rattle.sheet.specs.Play.{play_of, returned};

/// The bytes written, or minus the number of the refusal.
#[unsafe(no_mangle)]
pub extern "C" fn level_control_play(records: &[u8], out: &mut [u8]) -> i32
    ensures { (result, out.new) ≡ returned (play_of records.now out.old) }
{
    sheet::play::level_control_play(records, out)
}
