//! Laws of sessions that are read line by line, and of scripts.

ghost use Rattle.std.specs.Prelude.{◌≡◌, ◌≤◌, ◌<◌, ◌+◌, ◌∷◌, ◌++◌, ℕ, List, All, map, length, Ok, Err};
ghost use Rattle.timing_defs.specs.declared.codes.Code.TheVariants.{ScriptBadCommand};
ghost use Rattle.timing_defs.specs.declared.scripts.Command.{Command};
ghost use Rattle.timing_defs.specs.declared.scripts.Script.{Script};
ghost use Rattle.sta_text.specs.declared.faults.Wrong.{Wrong};
ghost use Rattle.sta_text.specs.Faults.{told_fault};
ghost use Rattle.eco_journal.specs.Lines.{cut_lines, lines_of};
ghost use Rattle.script_reader.specs.declared.live.Item.{Item};
ghost use Rattle.script_reader.specs.declared.live.Item.TheVariants.{Asked, Faulty};
ghost use Rattle.script_reader.specs.Scripts.{outside, events, faults, script_of};
ghost use Rattle.script_reader.specs.Live.{LivePlace, items, place_behind, all_items, live_line};
ghost use Rattle.script_reader.specs.LiveKept.{CanBeAnswered, IsKeptLive};

/// The items of a session are those of its first lines, and then those of the others.
#[tactic(auto, using(crate::proofs::LiveLaws::more_items, crate::proofs::LiveLaws::more_places))]
pub fn items_of_more_lines()
    ensures items { (place : LivePlace) (n : ℕ) (first others : List (List ℕ))
        → items place n (first ++ others)
        ≡ items place n first ++ items (place_behind place n first) (n + length first) others }
    ensures place { (place : LivePlace) (n : ℕ) (first others : List (List ℕ))
        → place_behind place n (first ++ others)
        ≡ place_behind (place_behind place n first) (n + length first) others }
{}

/// A text is a script exactly where its lines, and their end, give commands alone, at most 10,000;
/// the commands of the script are these.
#[tactic(auto, using(crate::proofs::LiveLaws::script_items, crate::proofs::LiveLaws::script_few, crate::proofs::LiveLaws::items_script))]
pub fn items_of_script()
    ensures script { (text : List ℕ) (script : Script) → script_of text ≡ Ok script
        → all_items (cut_lines text) ≡ map Asked script.commands }
    ensures few { (text : List ℕ) (script : Script) → script_of text ≡ Ok script
        → length script.commands ≤ 10000 }
    ensures items { (text : List ℕ) (commands : List Command) → all_items (cut_lines text)
        ≡ map Asked commands → length commands ≤ 10000 → script_of text
        ≡ Ok (record { commands = commands }) }
{}

/// The first wrong line is wrong as it is in a script: where fewer than 10,000 commands stand before
/// it, its code and its line are those of the first fault of the script, in the order of its lines;
/// and where the code is `C1`, it is with this code and line that the script is refused.
#[tactic(auto, using(crate::proofs::LiveLaws::first_wrong, crate::proofs::LiveLaws::first_told))]
pub fn first_wrong_line()
    ensures first { (text : List ℕ) (commands : List Command) (wrong : Wrong) (more : List Item)
        → all_items (cut_lines text) ≡ map Asked commands ++ Faulty wrong ∷ more
        → length commands < 10000 → (others : List Wrong)
        × (faults 0 outside (events 1 (lines_of text)) ≡ wrong ∷ others) }
    ensures told { (text : List ℕ) (commands : List Command) (wrong : Wrong) (more : List Item)
        → all_items (cut_lines text) ≡ map Asked commands ++ Faulty wrong ∷ more
        → length commands < 10000 → wrong.code ≡ ScriptBadCommand → script_of text
        ≡ Err (told_fault wrong) }
{}

/// Of a line above 65,536 bytes its first 65,537 say as much as the whole.
#[tactic(auto, using(crate::proofs::LiveLaws::cut_line))]
pub fn long_line_cut()
    ensures { (place : LivePlace) (n : ℕ) (line more : List ℕ) → length line ≡ 65537
        → live_line place n (line ++ more) ≡ live_line place n line }
{}

/// Each command that lines ask is as engines answer it, behind a place as readers keep it and in a
/// whole session; and the place behind the lines is again as readers keep it.
#[tactic(auto, using(crate::proofs::LiveKeptLaws::items_kept, crate::proofs::LiveKeptLaws::places_kept, crate::proofs::LiveKeptLaws::all_items_kept))]
pub fn items_can_be_answered()
    ensures items { (place : LivePlace) (n : ℕ) (lines : List (List ℕ)) → IsKeptLive place
        → All CanBeAnswered (items place n lines) }
    ensures place { (place : LivePlace) (n : ℕ) (lines : List (List ℕ)) → IsKeptLive place
        → IsKeptLive (place_behind place n lines) }
    ensures session { (lines : List (List ℕ)) → All CanBeAnswered (all_items lines) }
{}
