//! Laws of the definitions, each a clause of a function with an empty body.

ghost use Rattle.std.specs.Prelude.{◌≡◌, ◌≢◌, ℕ, ◌+◌, ◌-◌, ◌*◌, ◌++◌, ◌∷◌, [], ◌↔◌, true, List, length};
ghost use Rattle.std.specs.Char.{is_ascii_digit};
ghost use Rattle.std.specs.List.{flat_map};
ghost use Rattle.text_laws.specs.Digits.{IsDigit, value_of};
ghost use Rattle.text_laws.specs.Blanks.{IsWhite, is_white};
ghost use Rattle.text_laws.specs.Words.{two_bytes, words_of};
ghost use Rattle.text_laws.specs.Fields.{fields_of, without_last_cr, IsCutInto};

/// Digits, the number that they are, and whitespace.
pub fn digit_laws()
    ensures push { (digits : List ℕ) (byte : ℕ) →
        value_of (digits ++ byte ∷ []) ≡ 10 * value_of digits + (byte - 48) }
    ensures digit { (byte : ℕ) → (is_ascii_digit byte ≡ true) ↔ IsDigit byte }
    ensures white { (byte : ℕ) → (is_white byte ≡ true) ↔ IsWhite byte }
{}

/// Samples of two bytes each.
pub fn word_laws()
    ensures back { (samples : List ℕ) → words_of (flat_map two_bytes samples) ≡ samples }
    ensures size { (samples : List ℕ) → length (flat_map two_bytes samples) ≡ 2 * length samples }
    ensures count { (bytes : List ℕ) (k : ℕ) → length bytes ≡ 2 * k → length (words_of bytes) ≡ k }
    ensures join { (first rest : List ℕ) (k : ℕ) → length first ≡ 2 * k →
        words_of (first ++ rest) ≡ words_of first ++ words_of rest }
{}

/// The fields of a line: its longest runs of bytes other than blank and TAB; and a CR at its end.
pub fn field_laws()
    ensures runs { (bytes : List ℕ) (fields : List (List ℕ)) → IsCutInto bytes fields →
        fields_of bytes ≡ fields }
    ensures cut { (bytes : List ℕ) → IsCutInto bytes (fields_of bytes) }
    ensures dropped { (bytes : List ℕ) → without_last_cr (bytes ++ 13 ∷ []) ≡ bytes }
    ensures kept { (bytes : List ℕ) (byte : ℕ) → byte ≢ 13 →
        without_last_cr (bytes ++ byte ∷ []) ≡ bytes ++ byte ∷ [] }
{}
