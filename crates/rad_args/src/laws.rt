//! The laws of command lines, in the words of whoever writes them. They are facts about the definitions, and the functions do
//! nothing.

ghost use Rattle.std.specs.Prelude.{◌≡◌, ◌≢◌, ℕ, true, false, List, [], ◌∷◌, map, Some, None};
ghost use Rattle.rad_args.specs.declared.item.Item.TheVariants as item;
ghost use Rattle.rad_args.specs.declared.reading.Reading.TheVariants as reading;
ghost use Rattle.rad_args.specs.Words.{is_in, is_value, read_words};
ghost use Rattle.rad_args.specs.Pushed.{onto};

/// Where letters may stand: `-r` is the letter r; `-rX` is the letter r and then what `-X` is; a plain word is itself; behind
/// `--` each word is plain; and a letter that the program hasn't is refused.
pub fn letters_are_read_as_they_are_written()
    ensures letter { (flags options : List ℕ) (letter : ℕ) (words : List (List ℕ)) → letter ≢ 45 → is_in letter flags ≡ true
        → read_words flags options reading.Letters ((45 ∷ letter ∷ []) ∷ words) ≡ onto (item.Letter letter ∷ []) (read_words flags options reading.Letters words) }
    ensures joined { (flags options : List ℕ) (letter next : ℕ) (rest : List ℕ) (words : List (List ℕ)) → letter ≢ 45 → next ≢ 45 → is_in letter flags ≡ true
        → read_words flags options reading.Letters ((45 ∷ letter ∷ next ∷ rest) ∷ words) ≡ onto (item.Letter letter ∷ []) (read_words flags options reading.Letters ((45 ∷ next ∷ rest) ∷ words)) }
    ensures plain { (flags options word : List ℕ) (words : List (List ℕ)) → is_value word ≡ true
        → read_words flags options reading.Letters (word ∷ words) ≡ onto (item.Plain word ∷ []) (read_words flags options reading.Letters words) }
    ensures behind { (flags options : List ℕ) (words : List (List ℕ))
        → read_words flags options reading.Letters ((45 ∷ 45 ∷ []) ∷ words) ≡ Some (map item.Plain words) }
    ensures unknown { (flags options : List ℕ) (letter : ℕ) (rest : List ℕ) (words : List (List ℕ)) → letter ≢ 45 → is_in letter flags ≡ false → is_in letter options ≡ false
        → read_words flags options reading.Letters ((45 ∷ letter ∷ rest) ∷ words) ≡ None }
{}

/// A letter with a value: `-u=VALUE` gives it any value, the empty one too; `-u VALUE` gives it a word that doesn't begin with a
/// hyphen, or a hyphen alone; another word behind `-u` is refused, and so is `-u` at the end.
pub fn values_are_read_as_they_are_written()
    ensures own_word { (flags options : List ℕ) (letter : ℕ) (value : List ℕ) (words : List (List ℕ)) → letter ≢ 45 → is_in letter flags ≡ false → is_in letter options ≡ true
        → read_words flags options reading.Letters ((45 ∷ letter ∷ 61 ∷ value) ∷ words) ≡ onto (item.Valued letter value ∷ []) (read_words flags options reading.Letters words) }
    ensures next_word { (flags options : List ℕ) (letter : ℕ) (value : List ℕ) (words : List (List ℕ)) → letter ≢ 45 → is_in letter flags ≡ false → is_in letter options ≡ true → is_value value ≡ true
        → read_words flags options reading.Letters ((45 ∷ letter ∷ []) ∷ value ∷ words) ≡ onto (item.Valued letter value ∷ []) (read_words flags options reading.Letters words) }
    ensures no_value { (flags options : List ℕ) (letter : ℕ) (word : List ℕ) (words : List (List ℕ)) → letter ≢ 45 → is_in letter flags ≡ false → is_in letter options ≡ true → is_value word ≡ false
        → read_words flags options reading.Letters ((45 ∷ letter ∷ []) ∷ word ∷ words) ≡ None }
    ensures at_end { (flags options : List ℕ) (letter : ℕ) → letter ≢ 45 → is_in letter flags ≡ false → is_in letter options ≡ true
        → read_words flags options reading.Letters ((45 ∷ letter ∷ []) ∷ []) ≡ None }
{}
