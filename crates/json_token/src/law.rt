ghost use Rattle.std.specs.Prelude.{◌↔◌, ℕ, List};
ghost use Rattle.json_token.specs.Number.{IsNumber};
ghost use Rattle.json_token.specs.Grammar.{IsNumeral};

/// A law, to be called by no program: the rules for the next byte give the numbers of RFC 8259, section 6, and no others.
pub fn numbers_are_those_of_the_grammar()
    ensures { (s : List ℕ) → IsNumber s ↔ IsNumeral s }
{}
