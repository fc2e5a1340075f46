// The Exp-Golomb code is that of ITU-T H.264, clause 9.1.
ghost use Rattle.std.specs.Prelude.{ℕ, IsTrue};
ghost use Rattle.model.specs.Golomb.{Clause_9_1, ParsingReadsCodewords};

// The codewords and the parsing process are the clause's, and they agree: what is parsed as a number is its codeword and nothing else. It
// answers true.
pub fn golomb_is_clause_9_1() -> bool
    ensures answer { IsTrue result }
    ensures clause { Clause_9_1 }
    ensures agree { (B : ℕ) → ParsingReadsCodewords B }
{
    true
}
