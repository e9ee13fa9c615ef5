//! Laws of scripts of reads and writes, for whoever carries one out.
ghost use Rattle.std.specs.Prelude.{ℕ, List};
ghost use Rattle.fabric_script.specs.declared.lines.Numbered.{Numbered as NumberedLine};
ghost use Rattle.io_script.specs.declared.lines.NumberedIo.{NumberedIo as ANumberedIo};
ghost use Rattle.io_script.specs.IoScripts.{IsIoScript};
ghost use Rattle.io_rounds.specs.Drives.{IsIoFit};

/// Each script of reads and writes that bytes spell may be carried out: its set-up lines pass and
/// have no events, and each line behind them names an endpoint and asks for a request of the
/// profile.
pub fn io_scripts_are_fit()
    ensures { (bytes : List ℕ) (names : List (List ℕ)) (set_up : List NumberedLine)
        (lines : List ANumberedIo) → IsIoScript bytes names set_up lines
        → IsIoFit names set_up lines }
{}
