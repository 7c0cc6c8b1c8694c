//! What the definitions of reading have of themselves, as laws: each function here says one, and
//! does nothing.
ghost use Rattle.std.specs.Prelude.{◌≡◌, ◌↔◌, ℕ, List, Option, Ok, Err};
ghost use Rattle.tcl_parser.specs.declared.fault.Fault.{Fault as TheFault};
ghost use Rattle.tcl_parser.specs.Words.{WordRead};
ghost use Rattle.tcl_parser.specs.Reading.{level_at, read_command, read_script};
ghost use Rattle.tcl_parser.specs.Grammar.{Reads, HasFault, ReadsAll, IsDecided};

/// A text reads as one command and what follows it, or has one fault, by the rules of the grammar,
/// and never both: and the function that reads commands gives that command, or that fault. So it is
/// for any number of open brackets.
pub fn commands_read_one_way()
    ensures decided { (k : ℕ) (s : List ℕ) → IsDecided k s }
    ensures command { (k : ℕ) (s : List ℕ) (ws : List WordRead) (rest : List ℕ) →
        (Reads k s ws rest ↔ (read_command (level_at k) s ≡ Ok (ws, rest))) }
    ensures fault { (k : ℕ) (s : List ℕ) (fault : TheFault) →
        (HasFault k s fault ↔ (read_command (level_at k) s ≡ Err fault)) }
{}

/// A text reads, by the rules, as the commands and the fault that the function for scripts gives,
/// and in no other way.
pub fn scripts_read_one_way()
    ensures reads { (s : List ℕ) → ReadsAll s (read_script s).commands (read_script s).fault }
    ensures only { (s : List ℕ) (commands : List (List WordRead)) (fault : Option TheFault) →
        ReadsAll s commands fault → read_script s ≡ record { commands = commands; fault = fault } }
{}
