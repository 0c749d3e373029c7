ghost use Rattle.std.specs.Prelude.{◌≡◌, ℕ, ◌<◌, ◌≤◌, ◌^◌, List, Some, IsTrue, [], ◌∷◌, ◌++◌, filter, length};
ghost use Rattle.std.specs.Fmt.{decimal};
ghost use Rattle.std.specs.List.{join_with_byte};
ghost use Rattle.pre_text.specs.Lines.{cut_at, is_nonempty, lines_of, words_of};
ghost use Rattle.pre_text.specs.Reading.{AreOctets, AreWords, IsWord, joined};
ghost use Rattle.pre_text.specs.Words.{is_name, number_of, pairs_within};
ghost use Rattle.pre_text.specs.Writing.{hex, line_of};

/// A text of lines can be read in one way: where two are equal, so are the words of their first lines, and what follows.
pub fn one_reading()
    ensures { (w v : List ℕ) (ws vs : List (List ℕ)) (r s : List ℕ) → IsWord w → IsWord v → AreWords ws → AreWords vs → line_of w ws ++ r ≡ line_of v vs ++ s → (w ≡ v) × (ws ≡ vs) × (r ≡ s) }
{}

/// The parts of a text, joined by what they were cut at, are the text.
pub fn parts_join()
    ensures { (stop : ℕ) (text : List ℕ) → join_with_byte stop (cut_at stop text) ≡ text }
{}

/// What is written as a line of words is read as that line, and as these words.
pub fn lines_read_back()
    ensures line { (w : List ℕ) (ws : List (List ℕ)) (rest : List ℕ) → IsWord w → AreWords ws → lines_of (line_of w ws ++ rest) ≡ joined w ws ∷ lines_of rest }
    ensures words { (w : List ℕ) (ws : List (List ℕ)) → IsWord w → AreWords ws → words_of (joined w ws) ≡ filter is_nonempty (w ∷ ws) }
{}

/// The digits of a number are a word, which is read as that number; and no other word is.
pub fn numbers_read_back()
    ensures word { (n : ℕ) → n < 2 ^ 64 → IsWord (decimal n) }
    ensures same { (n : ℕ) → n < 2 ^ 64 → number_of (decimal n) ≡ Some n }
    ensures only { (word : List ℕ) (n : ℕ) → number_of word ≡ Some n → word ≡ decimal n }
{}

/// The pairs of digits of octets are a word, which is read as these octets.
pub fn pairs_read_back()
    ensures word { (octets : List ℕ) → AreOctets octets → IsWord (hex octets) }
    ensures same { (octets : List ℕ) (room : ℕ) → AreOctets octets → 0 < length octets → length octets ≤ room → pairs_within room (hex octets) ≡ Some octets }
{}

/// A name is a word.
pub fn names_are_words()
    ensures { (word : List ℕ) → IsTrue (is_name word) → IsWord word }
{}
