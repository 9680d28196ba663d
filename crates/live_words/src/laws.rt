//! Plain words: none is empty or begins with a hyphen; `--journal` and a name may stand directly behind `live`.

ghost use Rattle.std.specs.Prelude.{◌≡◌, ◌≤◌, List, ◌∷◌, Some, None, length, codes};
ghost use Rattle.clap.specs.Walk.{Text};
ghost use Rattle.command_words.specs.Numbers.{within};
ghost use Rattle.command_words.specs.Plain.{ArePlain};
ghost use Rattle.live_words.specs.Command.{few_pairs, live_with, words_of};

/// Plain words of the two forms are never refused for another cause than a number or a count out of
/// its range, and mean what stands at their places.
pub fn plain_words_are_kept()
    ensures live { (e l n c s w : Text) (names : List Text)
        → ArePlain (e ∷ l ∷ n ∷ c ∷ s ∷ w ∷ names) → length names ≤ 100
        → words_of (codes "live" ∷ e ∷ l ∷ n ∷ c ∷ s ∷ w ∷ names)
        ≡ live_with None (Some (record { early = e; late = l; netlist = n; sdc = c; spef = s }))
        (within 1 32 w) (few_pairs names) }
    ensures journal { (j e l n c s w : Text) (names : List Text)
        → ArePlain (j ∷ e ∷ l ∷ n ∷ c ∷ s ∷ w ∷ names) → length names ≤ 100
        → words_of (codes "live" ∷ codes "--journal" ∷ j ∷ e ∷ l ∷ n ∷ c ∷ s ∷ w ∷ names)
        ≡ live_with (Some j) (Some (record { early = e; late = l; netlist = n; sdc = c; spef = s }))
        (within 1 32 w) (few_pairs names) }
{}
