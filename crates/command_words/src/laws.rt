//! Plain words: none is empty or begins with a hyphen; `--journal` and a name may stand directly behind `run`.

ghost use Rattle.std.specs.Prelude.{◌≡◌, ◌≤◌, List, [], ◌∷◌, Some, None, option_map, length, codes};
ghost use Rattle.clap.specs.Walk.{Text};
ghost use Rattle.command_words.specs.Plain.{IsPlain, ArePlain};
ghost use Rattle.command_words.specs.Numbers.{within, multiple_within};
ghost use Rattle.command_words.specs.Asked.{run as run_asked, generate as generate_asked};
ghost use Rattle.command_words.specs.Command.{run_with, few_scripts, generate_with, words_of};

/// Plain words of the two forms are never refused for another cause than a number or a count out of
/// its range, and mean what stands at their places.
pub fn plain_words_are_kept()
    ensures run { (e l n c s w x : Text) (xs : List Text)
        → ArePlain (e ∷ l ∷ n ∷ c ∷ s ∷ w ∷ x ∷ xs) → length xs ≤ 100
        → words_of (codes "run" ∷ e ∷ l ∷ n ∷ c ∷ s ∷ w ∷ x ∷ xs)
        ≡ option_map run_asked
        (run_with None (Some (record { early = e; late = l; netlist = n; sdc = c; spef = s }))
        (within 1 32 w) (few_scripts (x ∷ xs))) }
    ensures journal { (j e l n c s w x : Text) (xs : List Text)
        → ArePlain (j ∷ e ∷ l ∷ n ∷ c ∷ s ∷ w ∷ x ∷ xs) → length xs ≤ 100
        → words_of (codes "run" ∷ codes "--journal" ∷ j ∷ e ∷ l ∷ n ∷ c ∷ s ∷ w ∷ x ∷ xs)
        ≡ option_map run_asked
        (run_with (Some j) (Some (record { early = e; late = l; netlist = n; sdc = c; spef = s }))
        (within 1 32 w) (few_scripts (x ∷ xs))) }
    ensures generate { (n g e : Text) → ArePlain (n ∷ g ∷ e ∷ [])
        → words_of (codes "generate" ∷ n ∷ g ∷ e ∷ [])
        ≡ option_map generate_asked
        (generate_with (within 0 18446744073709551615 n) (multiple_within 4 40000 g)
        (multiple_within 0 4000 e)) }
{}
